//! The time-stamps of a signature.

ghost use Rattle.std.specs.Prelude.{◌≡◌};
ghost use Rattle.signature_parts.specs.ListsLeft.{all_doc};

use crate::kinds::is_stamp;
use crate::lists::ElementsIn;
use crate::part_lists::properties;
use doc_spans::{Doc, NodeId};

/// The unsigned properties of a signature that are time-stamps and still to come, in document order. It takes no memory.
#[derive(Drop)]
pub struct StampElements<'a> {
    doc: Doc<'a>,
    properties: ElementsIn<'a>,
    ghost same: { all_doc properties ≡ doc },
}

impl<'a> StampElements<'a> {
    ghost use Rattle.doc_spans.specs.Seen.{Has, document_in};
    ghost use Rattle.signature_elements.specs.Standing.{spot_of};
    ghost use Rattle.signature_model.specs.Parts.{stamps};
    ghost use Rattle.signature_parts.specs.StampsLeft.{stamps_doc, stamps_left};

    /// Those of a signature.
    pub fn of(doc: Doc<'a>, signature: NodeId) -> StampElements<'a>
        requires { Has doc signature }
        ensures doc { stamps_doc result ≡ doc.entry }
        ensures spots { stamps_left result ≡ stamps (document_in doc.entry) (spot_of doc.entry signature) }
    {
        StampElements {
            doc,
            properties: properties(doc, signature),
        }
    }
}

impl<'a> Iterator for StampElements<'a> {
    type Item = NodeId;

    ghost use Rattle.signature_elements.specs.Standing.{GivesSpot, spots_count};
    ghost use Rattle.signature_parts.specs.StampsLeft.{stamps_doc, stamps_left};

    ghost next_gives = { GivesSpot stamps_doc stamps_left };

    ghost remaining = { spots_count stamps_left };

    fn next(&mut self) -> Option<NodeId> {
        'properties: while let Some(node) = self.properties.next() {
            if is_stamp(self.doc, node) {
                return Some(node);
            }
        }
        None
    }
}
