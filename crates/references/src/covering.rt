//! Whether a signature is free to take more: whether one of its References covers a place at which something may be put in.

ghost use Rattle.std.specs.Prelude.{◌≡◌, ◌&&◌};
ghost use Rattle.doc_spans.specs.Seen.{document_in, path_in};
ghost use Rattle.signature_elements.specs.Standing.{spot_of};
ghost use Rattle.signature_model.specs.Covers.{covers_place, is_reached, self_cover};
ghost use Rattle.signature_model.specs.Parts.{is_blank};
ghost use Rattle.qualifying_props.specs.PartsOf.{AreParts};
ghost use Rattle.reference_chains.specs.References.{IsReference};
ghost use Rattle.references.specs.RefsOf.{AreRefsOf};

use crate::rows::Refs;
use doc_spans::Doc;
use qualifying_props::SignatureParts;
use reference_chains::{Reference, is_reached};
use signature_elements::is_blank;

// Whether the nodes of a Reference hold the signature value, where this is blank.
fn covers_value(doc: Doc<'_>, parts: &SignatureParts, is_open: bool, reference: Reference) -> bool
    requires parts { AreParts doc parts.now }
    requires reference { IsReference doc reference }
    ensures { result ≡ (is_open && is_reached (document_in doc.entry) (path_in doc.entry parts.now.signature) (spot_of doc.entry parts.now.value_node) (spot_of doc.entry reference.node)) }
{
    is_open && is_reached(doc, parts.signature(), parts.value_node(), reference)
}

// Whether they hold it or the host of new properties.
fn covers_place(doc: Doc<'_>, parts: &SignatureParts, is_open: bool, reference: Reference) -> bool
    requires parts { AreParts doc parts.now }
    requires open { is_open ≡ is_blank (document_in doc) (spot_of doc parts.now.value_node) }
    requires reference { IsReference doc reference }
    ensures { result ≡ covers_place (document_in doc.entry) (spot_of doc.entry parts.now.signature) (spot_of doc.entry reference.node) }
{
    covers_value(doc, parts, is_open, reference)
        || is_reached(doc, parts.signature(), parts.host(), reference)
}

/// The number, from 1, of the first Reference whose nodes hold a place at which something may be put into the signature: the
/// `SignatureValue`, where it is blank, or the innermost of `UnsignedSignatureProperties`, `UnsignedProperties` and
/// `QualifyingProperties`. None where the signature is free to take more. It looks at no octets and takes no memory.
pub fn self_cover(doc: Doc<'_>, parts: &SignatureParts, refs: &Refs) -> Option<u32>
    requires parts { AreParts doc parts.now }
    requires refs { AreRefsOf doc parts.now refs.now }
    ensures { result ≡ self_cover (document_in doc.entry) (spot_of doc.entry parts.now.signature) }
{
    let is_open = is_blank(doc, parts.value_node());
    for number in 0..refs.len() {
        let k = number as u32 + 1;
        if covers_place(doc, parts, is_open, refs.reference(k)) {
            return Some(k);
        }
    }
    None
}
