//! The elements that an element holds which may not exist.

ghost use Rattle.std.specs.Prelude.{◌≡◌, IfSome};
ghost use Rattle.std.specs.Option.{ForSome};
ghost use Rattle.doc_spans.specs.Seen.{document_in};
ghost use Rattle.signature_elements.specs.ElementsLeft.{elements_doc};
ghost use Rattle.signature_elements.specs.NamedLeft.{called_doc};
ghost use Rattle.signature_elements.specs.Standing.{spot_or_none, IsThere};

use doc_spans::{Doc, NodeId};
use signature_elements::{ChildElements, ElementName, NamedElements, called, elements};

/// The child elements with one name of an element that may not exist that are still to come, in document order. It takes no memory.
#[derive(Drop)]
pub struct NamedIn<'a, 'n> {
    doc: Doc<'a>,
    held: Option<NamedElements<'a, 'n>>,
    ghost same: { ForSome held (λ it. called_doc it ≡ doc) },
}

impl<'a, 'n> NamedIn<'a, 'n> {
    ghost use Rattle.signature_model.specs.Spots.{called_in};
    ghost use Rattle.signature_elements.specs.Names.{expanded};
    ghost use Rattle.signature_parts.specs.ListsLeft.{named_doc, named_left};

    /// Those of an element with a name; none where there is no element.
    pub fn of(doc: Doc<'a>, holder: Option<NodeId>, name: ElementName<'n>) -> NamedIn<'a, 'n>
        requires { IfSome holder (IsThere doc) }
        ensures doc { named_doc result ≡ doc.entry }
        ensures spots { named_left result ≡ called_in (document_in doc.entry) (expanded name.entry) (spot_or_none doc.entry holder) }
    {
        match holder {
            Some(node) => NamedIn {
                doc,
                held: Some(called(doc, node, name)),
            },
            None => NamedIn { doc, held: None },
        }
    }
}

impl<'a, 'n> Iterator for NamedIn<'a, 'n> {
    type Item = NodeId;

    ghost use Rattle.signature_elements.specs.Standing.{GivesSpot, spots_count};
    ghost use Rattle.signature_parts.specs.ListsLeft.{named_doc, named_left};

    ghost next_gives = { GivesSpot named_doc named_left };

    ghost remaining = { spots_count named_left };

    fn next(&mut self) -> Option<NodeId> {
        match &mut self.held {
            Some(held) => held.next(),
            None => None,
        }
    }
}

/// All child elements of an element that may not exist that are still to come, in document order. It takes no memory.
#[derive(Drop)]
pub struct ElementsIn<'a> {
    doc: Doc<'a>,
    held: Option<ChildElements<'a>>,
    ghost same: { ForSome held (λ it. elements_doc it ≡ doc) },
}

impl<'a> ElementsIn<'a> {
    ghost use Rattle.std.specs.Prelude.{flat_map};
    ghost use Rattle.signature_model.specs.Spots.{elements_in};
    ghost use Rattle.signature_parts.specs.ListsLeft.{all_doc, all_left};

    /// Those of an element; none where there is no element.
    pub fn of(doc: Doc<'a>, holder: Option<NodeId>) -> ElementsIn<'a>
        requires { IfSome holder (IsThere doc) }
        ensures doc { all_doc result ≡ doc.entry }
        ensures spots { all_left result ≡ flat_map (elements_in (document_in doc.entry)) (spot_or_none doc.entry holder) }
    {
        match holder {
            Some(node) => ElementsIn {
                doc,
                held: Some(elements(doc, node)),
            },
            None => ElementsIn { doc, held: None },
        }
    }
}

impl<'a> Iterator for ElementsIn<'a> {
    type Item = NodeId;

    ghost use Rattle.signature_elements.specs.Standing.{GivesSpot, spots_count};
    ghost use Rattle.signature_parts.specs.ListsLeft.{all_doc, all_left};

    ghost next_gives = { GivesSpot all_doc all_left };

    ghost remaining = { spots_count all_left };

    fn next(&mut self) -> Option<NodeId> {
        match &mut self.held {
            Some(held) => held.next(),
            None => None,
        }
    }
}
