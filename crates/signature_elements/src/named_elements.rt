//! The child elements that have a name.

ghost use Rattle.std.specs.Prelude.{◌≡◌};
ghost use Rattle.signature_elements.specs.ElementsLeft.{elements_doc};

use crate::child_elements::ChildElements;
use crate::names::{ElementName, is_called};
use doc_spans::{Doc, NodeId};

/// The child elements of a node with one name that are still to come, in document order. It takes no memory.
#[derive(Drop)]
pub struct NamedElements<'a, 'n> {
    doc: Doc<'a>,
    elements: ChildElements<'a>,
    name: ElementName<'n>,
    ghost same: { elements_doc elements ≡ doc },
}

impl<'a, 'n> NamedElements<'a, 'n> {
    ghost use Rattle.doc_spans.specs.Seen.{Has, document_in};
    ghost use Rattle.signature_model.specs.Spots.{called};
    ghost use Rattle.signature_elements.specs.Names.{expanded};
    ghost use Rattle.signature_elements.specs.Standing.{spot_of};
    ghost use Rattle.signature_elements.specs.NamedLeft.{called_doc, called_left};

    /// Those of a node with a name.
    pub fn of(doc: Doc<'a>, node: NodeId, name: ElementName<'n>) -> NamedElements<'a, 'n>
        requires { Has doc node }
        ensures doc { called_doc result ≡ doc.entry }
        ensures spots { called_left result ≡ called (document_in doc.entry) (expanded name.entry) (spot_of doc.entry node) }
    {
        NamedElements {
            doc,
            elements: ChildElements::of(doc, node),
            name,
        }
    }
}

impl<'a, 'n> Iterator for NamedElements<'a, 'n> {
    type Item = NodeId;

    ghost use Rattle.signature_elements.specs.Standing.{GivesSpot, spots_count};
    ghost use Rattle.signature_elements.specs.NamedLeft.{called_doc, called_left};

    ghost next_gives = { GivesSpot called_doc called_left };

    ghost remaining = { spots_count called_left };

    fn next(&mut self) -> Option<NodeId> {
        'elements: while let Some(node) = self.elements.next() {
            if is_called(self.doc, node, self.name) {
                return Some(node);
            }
        }
        None
    }
}
