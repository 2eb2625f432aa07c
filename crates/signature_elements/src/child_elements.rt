//! The child elements of a node, one after another.

ghost use Rattle.std.specs.Prelude.{◌<◌, length};
ghost use Rattle.std.specs.List.{All};
ghost use Rattle.doc_spans.specs.Rest.{rest};
ghost use Rattle.doc_spans.specs.Seen.{shown_in};

use doc_spans::{Children, Doc, Kind, NodeId};

/// The child elements of a node that are still to come, in document order. It takes no memory.
#[derive(Drop)]
pub struct ChildElements<'a> {
    doc: Doc<'a>,
    children: Children<'a>,
    ghost within: { All (λ k. k < length (shown_in doc).places) (rest children) },
}

impl<'a> ChildElements<'a> {
    ghost use Rattle.std.specs.Prelude.{◌≡◌};
    ghost use Rattle.doc_spans.specs.Seen.{Has, document_in};
    ghost use Rattle.signature_model.specs.Spots.{elements_in};
    ghost use Rattle.signature_elements.specs.Standing.{spot_of};
    ghost use Rattle.signature_elements.specs.ElementsLeft.{elements_doc, elements_left};

    /// Those of a node; a node that isn't an element has none.
    pub fn of(doc: Doc<'a>, node: NodeId) -> ChildElements<'a>
        requires { Has doc node }
        ensures doc { elements_doc result ≡ doc.entry }
        ensures spots { elements_left result ≡ elements_in (document_in doc.entry) (spot_of doc.entry node) }
    {
        ChildElements {
            doc,
            children: doc.children(node),
        }
    }
}

impl<'a> Iterator for ChildElements<'a> {
    type Item = NodeId;

    ghost use Rattle.signature_elements.specs.Standing.{GivesSpot, spots_count};
    ghost use Rattle.signature_elements.specs.ElementsLeft.{elements_doc, elements_left};

    ghost next_gives = { GivesSpot elements_doc elements_left };

    ghost remaining = { spots_count elements_left };

    fn next(&mut self) -> Option<NodeId> {
        'nodes: while let Some(node) = self.children.next() {
            if matches!(self.doc.kind(node), Kind::Element) {
                return Some(node);
            }
        }
        None
    }
}
