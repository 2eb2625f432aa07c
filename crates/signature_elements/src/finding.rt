//! The elements that an element holds: all of them, those with a name, and the first with a name.

ghost use Rattle.std.specs.Prelude.{◌≡◌, IfSome};
ghost use Rattle.doc_spans.specs.Seen.{Has, document_in};
ghost use Rattle.signature_model.specs.Spots.{elements_in, called, called_in, first};
ghost use Rattle.signature_elements.specs.Names.{expanded};
ghost use Rattle.signature_elements.specs.Standing.{spot_of, spot_or_none, IsThere};
ghost use Rattle.signature_elements.specs.ElementsLeft.{elements_doc, elements_left};
ghost use Rattle.signature_elements.specs.NamedLeft.{called_doc, called_left};

use crate::child_elements::ChildElements;
use crate::named_elements::NamedElements;
use crate::names::ElementName;
use doc_spans::{Doc, NodeId};

/// The child elements of a node, in document order; a node that isn't an element has none.
pub fn elements<'a>(doc: Doc<'a>, node: NodeId) -> ChildElements<'a>
    requires { Has doc node }
    ensures doc { elements_doc result ≡ doc.entry }
    ensures spots { elements_left result ≡ elements_in (document_in doc.entry) (spot_of doc.entry node) }
{
    ChildElements::of(doc, node)
}

/// The child elements of a node that have a name, in document order.
pub fn called<'a, 'n>(doc: Doc<'a>, node: NodeId, name: ElementName<'n>) -> NamedElements<'a, 'n>
    requires { Has doc node }
    ensures doc { called_doc result ≡ doc.entry }
    ensures spots { called_left result ≡ called (document_in doc.entry) (expanded name.entry) (spot_of doc.entry node) }
{
    NamedElements::of(doc, node, name)
}

/// The first child element of a node that has a name; none where no child has it.
pub fn first_called(doc: Doc<'_>, node: NodeId, name: ElementName<'_>) -> Option<NodeId>
    requires { Has doc node }
    ensures spot { spot_or_none doc.entry result ≡ first (called (document_in doc.entry) (expanded name.entry) (spot_of doc.entry node)) }
    ensures there { IfSome result (IsThere doc.entry) }
{
    called(doc, node, name).next()
}

/// The same of an element that may not exist; none where it doesn't.
pub fn first_in(doc: Doc<'_>, holder: Option<NodeId>, name: ElementName<'_>) -> Option<NodeId>
    requires { IfSome holder (IsThere doc) }
    ensures spot { spot_or_none doc.entry result ≡ first (called_in (document_in doc.entry) (expanded name.entry) (spot_or_none doc.entry holder)) }
    ensures there { IfSome result (IsThere doc.entry) }
{
    match holder {
        Some(node) => first_called(doc, node, name),
        None => None,
    }
}
