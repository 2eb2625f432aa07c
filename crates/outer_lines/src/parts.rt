//! The children of a signature (XML Signature 1.1, section 4.1).

ghost use Rattle.std.specs.Prelude.{◌≡◌, [], ◌∷◌, codes, map};
ghost use Rattle.doc_spans.specs.Seen.{document_in};
ghost use Rattle.signature_elements.specs.Standing.{spot_of, IsThere};
ghost use Rattle.signature_model.specs.Vocabulary.{ds};
ghost use Rattle.signature_model.specs.Holding.{one, any_number};
ghost use Rattle.signature_model.specs.Shape.{parts_line};
ghost use Rattle.signature_parts.specs.Places.{IsFirst};
ghost use Rattle.signature_parts.specs.Slots.{slot_in};

use doc_spans::{Doc, NodeId};
use signature_elements::ds;
use signature_parts::{FirstPlace, Slot};

/// The first fault of the children of a signature: one SignedInfo, one SignatureValue, one KeyInfo and any number of Objects.
pub fn parts_line(doc: Doc<'_>, signature: NodeId) -> FirstPlace
    requires { IsThere doc signature }
    ensures { IsFirst doc.entry (parts_line (document_in doc.entry) (spot_of doc.entry signature)) result }
{
    let mut places = FirstPlace::none();
    places.add_with_stray_text(doc, Some(signature));
    places.add_misfits(doc, &children(), Some(signature));
    places
}

fn children() -> [Slot<'static>; 4]
    ensures { map slot_in result
        ≡ one (ds (codes "SignedInfo"))
        ∷ one (ds (codes "SignatureValue"))
        ∷ one (ds (codes "KeyInfo"))
        ∷ any_number (ds (codes "Object"))
        ∷ [] }
{
    let info = ds("SignedInfo");
    let value = ds("SignatureValue");
    let key = ds("KeyInfo");
    let object = ds("Object");
    [
        Slot::one(info),
        Slot::one(value),
        Slot::one(key),
        Slot::any_number(object),
    ]
}
