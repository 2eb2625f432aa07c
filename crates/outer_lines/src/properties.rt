//! The children of the qualifying properties (EN 319 132-1, clauses 4.3.1, 4.3.2 and 4.3.5).

ghost use Rattle.std.specs.Prelude.{◌≡◌, [], ◌∷◌, codes, map};
ghost use Rattle.doc_spans.specs.Seen.{document_in};
ghost use Rattle.signature_elements.specs.Standing.{spot_of, IsThere};
ghost use Rattle.signature_model.specs.Vocabulary.{xades};
ghost use Rattle.signature_model.specs.Holding.{one, at_most_one};
ghost use Rattle.signature_model.specs.Shape.{properties_line};
ghost use Rattle.signature_parts.specs.Places.{IsFirst};
ghost use Rattle.signature_parts.specs.Slots.{slot_in};

use doc_spans::{Doc, NodeId};
use signature_elements::xades;
use signature_parts::{
    FirstPlace, Slot, qualifying, signed_properties, unsigned, unsigned_signature,
};

/// The first fault of the children of the qualifying properties: one SignedProperties, which has an Id, and perhaps UnsignedProperties, in
/// which only one UnsignedSignatureProperties may stand.
pub fn properties_line(doc: Doc<'_>, signature: NodeId) -> FirstPlace
    requires { IsThere doc signature }
    ensures { IsFirst doc.entry (properties_line (document_in doc.entry) (spot_of doc.entry signature)) result }
{
    let holder = qualifying(doc, signature);
    let signed = signed_properties(doc, signature);
    let unsigned = unsigned(doc, signature);
    let mut places = FirstPlace::none();
    places.add_with_stray_text(doc, holder);
    places.add_with_stray_text(doc, signed);
    places.add_with_stray_text(doc, unsigned);
    places.add_with_stray_text(doc, unsigned_signature(doc, signature));
    places.add_misfits(doc, &children(), holder);
    places.add_without_attribute(doc, "Id", signed);
    places.add_misfits(doc, &unsigned_children(), unsigned);
    places
}

fn children() -> [Slot<'static>; 2]
    ensures { map slot_in result ≡ one (xades (codes "SignedProperties")) ∷ at_most_one (xades (codes "UnsignedProperties")) ∷ [] }
{
    let signed = xades("SignedProperties");
    let unsigned = xades("UnsignedProperties");
    [Slot::one(signed), Slot::at_most_one(unsigned)]
}

fn unsigned_children() -> [Slot<'static>; 1]
    ensures { map slot_in result ≡ at_most_one (xades (codes "UnsignedSignatureProperties")) ∷ [] }
{
    [Slot::at_most_one(xades("UnsignedSignatureProperties"))]
}
