//! The octets that are handed in for one Reference.

ghost use Rattle.std.specs.Prelude.{◌≡◌};
ghost use Rattle.std.specs.Option.{option_copied};
ghost use Rattle.signature_model.specs.Chains.{handed_in as given_to, place};
ghost use Rattle.signature_elements.specs.Standing.{spot_of};
ghost use Rattle.reference_chains.specs.HandedIn.{handed_in};
ghost use Rattle.reference_chains.specs.References.{IsReference};

use crate::externals::Externals;
use crate::places::{Place, uri_of};
use crate::references::Reference;
use doc_spans::Doc;

/// The octets that are handed in for a Reference, where it is an external one and some are.
pub fn handed_to<'a>(
    doc: Doc<'_>,
    reference: Reference,
    externals: &'a Externals,
) -> Option<&'a [u8]>
    requires { IsReference doc reference }
    ensures { option_copied result ≡ given_to (handed_in externals.now) (place (spot_of doc.entry reference.node)) (spot_of doc.entry reference.node) }
{
    match reference.place {
        Place::External => externals.get_pieces(uri_of(doc, reference.node)),
        _ => None,
    }
}
