//! The value of a signature.

ghost use Rattle.doc_spans.specs.Seen.{Has, document_in};
ghost use Rattle.signature_elements.specs.Standing.{spot_of};
ghost use Rattle.signature_model.specs.Shape.{value_line};
ghost use Rattle.signature_parts.specs.Places.{IsFirst};

use doc_spans::{Doc, NodeId};
use signature_parts::{FirstPlace, value};

/// The value is strict base64, or blank (XML Signature 1.1, section 4.3).
pub fn value_line(doc: Doc<'_>, signature: NodeId) -> FirstPlace
    requires { Has doc signature }
    ensures { IsFirst doc.entry (value_line (document_in doc.entry) (spot_of doc.entry signature)) result }
{
    let mut place = FirstPlace::none();
    place.add_without_octets(doc, value(doc, signature));
    place
}
