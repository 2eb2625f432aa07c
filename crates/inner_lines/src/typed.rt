//! References by their Type (XML Signature 1.1, section 4.4.3; EN 319 132-1, clause 4.4).

ghost use Rattle.std.specs.Prelude.{◌≡◌, ◌∷◌, [], MatchOption, filter};
ghost use Rattle.signature_elements.specs.Standing.{spot_of, IsThere};
ghost use Rattle.signature_model.specs.Parts.{is_typed};
ghost use Rattle.signature_model.specs.Spots.{paths};
ghost use Rattle.signature_parts.specs.ListsLeft.{named_doc, named_left};
ghost use Rattle.signature_parts.specs.Places.{Adds, IsWithin};

use doc_spans::{Doc, NodeId};
use signature_parts::{FirstPlace, NamedIn, is_typed};

/// The next Reference with that Type; those before it are passed.
pub(crate) fn next_typed(doc: Doc<'_>, references: &mut NamedIn<'_, '_>) -> Option<NodeId>
    requires { named_doc references.old ≡ doc }
    ensures doc { named_doc references.new ≡ doc.entry }
    ensures next { MatchOption result (filter is_typed (named_left references.old) ≡ []) (λ node. IsThere doc.entry node × (filter is_typed (named_left references.old) ≡ spot_of doc.entry node ∷ filter is_typed (named_left references.new))) }
{
    'references: while let Some(reference) = references.next() {
        if is_typed(doc, reference) {
            return Some(reference);
        }
    }
    None
}

/// Adds those with that Type.
pub(crate) fn add_typed(place: &mut FirstPlace, doc: Doc<'_>, references: NamedIn<'_, '_>)
    requires within { IsWithin doc place.old }
    requires same { named_doc references ≡ doc }
    ensures { Adds doc.entry (paths (filter is_typed (named_left references.entry))) place.old place.new }
{
    for reference in references {
        place.add_where(doc, reference, is_typed(doc, reference));
    }
}
