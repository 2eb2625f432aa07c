//! The transforms of a Reference (XML Signature 1.1, section 4.4.3.4).

ghost use Rattle.std.specs.Prelude.{◌≡◌};
ghost use Rattle.doc_spans.specs.Seen.{Has, document_in};
ghost use Rattle.signature_elements.specs.NamedLeft.{called_doc, called_left};
ghost use Rattle.signature_elements.specs.Standing.{spot_of};
ghost use Rattle.signature_model.specs.Parts.{transform_lists};

use doc_spans::{Doc, NodeId};
use signature_elements::{NamedElements, called, ds};

/// The `Transforms` elements of a Reference.
pub fn transform_lists<'a>(doc: Doc<'a>, reference: NodeId) -> NamedElements<'a, 'static>
    requires { Has doc reference }
    ensures doc { called_doc result ≡ doc.entry }
    ensures spots { called_left result ≡ transform_lists (document_in doc.entry) (spot_of doc.entry reference) }
{
    called(doc, reference, ds("Transforms"))
}
