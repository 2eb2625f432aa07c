//! The signature method (XML Signature 1.1, section 4.4.2).

ghost use Rattle.doc_spans.specs.Seen.{document_in};
ghost use Rattle.signature_elements.specs.Standing.{spot_of, IsThere};
ghost use Rattle.signature_model.specs.Shape.{method_line};
ghost use Rattle.signature_parts.specs.Places.{IsFirst};

use doc_spans::{Doc, NodeId};
use signature_parts::{FirstPlace, signature_method};

/// The signature method, where it names no algorithm.
pub fn method_line(doc: Doc<'_>, signature: NodeId) -> FirstPlace
    requires { IsThere doc signature }
    ensures { IsFirst doc.entry (method_line (document_in doc.entry) (spot_of doc.entry signature)) result }
{
    let mut places = FirstPlace::none();
    places.add_without_attribute(doc, "Algorithm", signature_method(doc, signature));
    places
}
