//! The References (XML Signature 1.1, section 4.4.3).

ghost use Rattle.std.specs.Prelude.{◌≡◌, [], ◌∷◌, codes, map};
ghost use Rattle.doc_spans.specs.Seen.{Has, document_in};
ghost use Rattle.signature_elements.specs.Standing.{spot_of, IsThere};
ghost use Rattle.signature_model.specs.Vocabulary.{ds};
ghost use Rattle.signature_model.specs.Holding.{one, at_most_one};
ghost use Rattle.signature_model.specs.Shape.{reference_line, reference_line_of};
ghost use Rattle.signature_parts.specs.Places.{Adds, IsFirst, IsWithin};
ghost use Rattle.signature_parts.specs.Slots.{slot_in};

use doc_spans::{Doc, NodeId};
use signature_elements::ds;
use signature_parts::{FirstPlace, Slot, digest_method, digest_value, references, transform_list};

/// The first fault of the References: each has a URI, then perhaps Transforms, a DigestMethod that names its algorithm, and a DigestValue
/// in base64.
pub fn reference_line(doc: Doc<'_>, signature: NodeId) -> FirstPlace
    requires { IsThere doc signature }
    ensures { IsFirst doc.entry (reference_line (document_in doc.entry) (spot_of doc.entry signature)) result }
{
    let mut places = FirstPlace::none();
    add_references(&mut places, doc, signature);
    places
}

fn add_references(places: &mut FirstPlace, doc: Doc<'_>, signature: NodeId)
    requires within { IsWithin doc places.old }
    requires signature { Has doc signature }
    ensures { Adds doc.entry (reference_line (document_in doc.entry) (spot_of doc.entry signature)) places.old places.new }
{
    for reference in references(doc, signature) {
        add_reference(places, doc, reference);
    }
}

fn add_reference(places: &mut FirstPlace, doc: Doc<'_>, reference: NodeId)
    requires within { IsWithin doc places.old }
    requires reference { IsThere doc reference }
    ensures { Adds doc.entry (reference_line_of (document_in doc.entry) (spot_of doc.entry reference)) places.old places.new }
{
    let digest = digest_method(doc, Some(reference));
    places.add_with_stray_text(doc, Some(reference));
    places.add_with_stray_text(doc, transform_list(doc, reference));
    places.add_with_stray_text(doc, digest);
    places.add_without_attribute(doc, "URI", Some(reference));
    places.add_misfits(doc, &children(), Some(reference));
    places.add_without_attribute(doc, "Algorithm", digest);
    places.add_without_octets(doc, digest_value(doc, Some(reference)));
}

fn children() -> [Slot<'static>; 3]
    ensures { map slot_in result
        ≡ at_most_one (ds (codes "Transforms"))
        ∷ one (ds (codes "DigestMethod"))
        ∷ one (ds (codes "DigestValue"))
        ∷ [] }
{
    let transforms = ds("Transforms");
    let method = ds("DigestMethod");
    let value = ds("DigestValue");
    [
        Slot::at_most_one(transforms),
        Slot::one(method),
        Slot::one(value),
    ]
}
