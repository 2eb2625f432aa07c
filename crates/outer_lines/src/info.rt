//! The children of SignedInfo (XML Signature 1.1, section 4.4).

ghost use Rattle.std.specs.Prelude.{◌≡◌, [], ◌∷◌, codes, map};
ghost use Rattle.doc_spans.specs.Seen.{document_in};
ghost use Rattle.signature_elements.specs.Standing.{spot_of, IsThere};
ghost use Rattle.signature_model.specs.Vocabulary.{ds};
ghost use Rattle.signature_model.specs.Holding.{one, one_or_more};
ghost use Rattle.signature_model.specs.Shape.{info_line};
ghost use Rattle.signature_parts.specs.Places.{IsFirst};
ghost use Rattle.signature_parts.specs.Slots.{slot_in};

use doc_spans::{Doc, NodeId};
use signature_elements::ds;
use signature_parts::{FirstPlace, Slot, method, signature_method, signed_info};

/// The first fault of the children of SignedInfo: one CanonicalizationMethod, one SignatureMethod and at least one Reference.
pub fn info_line(doc: Doc<'_>, signature: NodeId) -> FirstPlace
    requires { IsThere doc signature }
    ensures { IsFirst doc.entry (info_line (document_in doc.entry) (spot_of doc.entry signature)) result }
{
    let info = signed_info(doc, signature);
    let mut places = FirstPlace::none();
    places.add_with_stray_text(doc, info);
    places.add_with_stray_text(doc, method(doc, signature));
    places.add_with_stray_text(doc, signature_method(doc, signature));
    places.add_misfits(doc, &children(), info);
    places
}

fn children() -> [Slot<'static>; 3]
    ensures { map slot_in result
        ≡ one (ds (codes "CanonicalizationMethod"))
        ∷ one (ds (codes "SignatureMethod"))
        ∷ one_or_more (ds (codes "Reference"))
        ∷ [] }
{
    let method = ds("CanonicalizationMethod");
    let signature_method = ds("SignatureMethod");
    let reference = ds("Reference");
    [
        Slot::one(method),
        Slot::one(signature_method),
        Slot::one_or_more(reference),
    ]
}
