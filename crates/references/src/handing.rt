//! Whether the octets of all References can be had.

ghost use Rattle.std.specs.Prelude.{◌≡◌, ◌<◌, ◌^◌, ◌&&◌, length, is_none, None, IfErr, OnOk};
ghost use Rattle.std.specs.List.{All};
ghost use Rattle.doc_spans.specs.Seen.{Has, document_in, path_in};
ghost use Rattle.signature_elements.specs.Standing.{spot_of};
ghost use Rattle.signature_model.specs.Chains.{first_of, handed_in as given_to, is_external, not_base64, not_handed_in, place};
ghost use Rattle.reference_chains.specs.HandedIn.{handed_in};
ghost use Rattle.reference_chains.specs.References.{IsReference};
ghost use Rattle.references.specs.Answers.{IsFault};
ghost use Rattle.references.specs.Found.{reference_spots};

use crate::faults::RefFault;
use doc_spans::{Doc, NodeId};
use reference_chains::{Externals, Reference, base64_fault, handed_to};

// Whether a Reference names what is outside, and no octets are handed in for it.
fn is_wanting(doc: Doc<'_>, reference: Reference, externals: &Externals) -> bool
    requires { IsReference doc reference }
    ensures { result ≡ (is_external (place (spot_of doc.entry reference.node)) && is_none (given_to (handed_in externals.now) (place (spot_of doc.entry reference.node)) (spot_of doc.entry reference.node))) }
{
    reference.place.is_external() && handed_to(doc, reference, externals).is_none()
}

// Refuses the first Reference to what is outside for which no octets are handed in.
pub(crate) fn refuse_wanting(
    doc: Doc<'_>,
    all: &[Reference],
    externals: &Externals,
) -> Result<(), RefFault>
    requires each { All (IsReference doc) all.now }
    requires few { length all.now < 2 ^ 32 }
    ensures none { OnOk result (first_of (not_handed_in (handed_in externals.now)) 1 (reference_spots doc.entry all.now) ≡ None) }
    ensures err { IfErr result (IsFault (first_of (not_handed_in (handed_in externals.now)) 1 (reference_spots doc.entry all.now))) }
{
    for (number, reference) in all.iter().enumerate() {
        if is_wanting(doc, *reference, externals) {
            return Err(RefFault::External {
                k: number as u32 + 1,
            });
        }
    }
    Ok(())
}

// Refuses the first Reference whose chain decodes what isn't base64.
pub(crate) fn refuse_undecoded(
    doc: Doc<'_>,
    signature: NodeId,
    all: &[Reference],
    externals: &Externals,
) -> Result<(), RefFault>
    requires signature { Has doc signature }
    requires each { All (IsReference doc) all.now }
    requires few { length all.now < 2 ^ 32 }
    ensures none { OnOk result (first_of (not_base64 (handed_in externals.now) (document_in doc.entry) (path_in doc.entry signature)) 1 (reference_spots doc.entry all.now) ≡ None) }
    ensures err { IfErr result (IsFault (first_of (not_base64 (handed_in externals.now) (document_in doc.entry) (path_in doc.entry signature)) 1 (reference_spots doc.entry all.now))) }
{
    for (number, reference) in all.iter().enumerate() {
        if let Some(at) = base64_fault(doc, signature, *reference, externals) {
            return Err(RefFault::Base64 {
                k: number as u32 + 1,
                at,
            });
        }
    }
    Ok(())
}
