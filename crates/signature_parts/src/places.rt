//! The first of the elements that are added one after another.

ghost use Rattle.std.specs.Prelude.{[], ◌∷◌};
ghost use Rattle.doc_spans.specs.Seen.{Has, path_in};
ghost use Rattle.signature_parts.specs.Places.{Adds, IsWithin};

use doc_spans::{Doc, NodeId};

/// Of the elements that were added, the one that stands first in document order; none where none was added. Of the same element that is
/// added twice the first one is kept. It takes no memory.
#[derive(Clone, Copy)]
pub struct FirstPlace {
    pub(crate) node: Option<NodeId>,
}

impl FirstPlace {
    ghost use Rattle.std.specs.Prelude.{◌≡◌, None, if◌then◌else◌};

    /// Nothing was added.
    pub fn none() -> FirstPlace
        ensures { result.node ≡ None }
    {
        FirstPlace { node: None }
    }

    /// The element that stands first.
    pub fn node(self) -> Option<NodeId>
        ensures { result ≡ self.node }
    {
        self.node
    }

    /// Adds an element.
    pub fn add(&mut self, doc: Doc<'_>, node: NodeId)
        requires within { IsWithin doc self.old }
        requires node { Has doc node }
        ensures { Adds doc.entry (path_in doc.entry node ∷ []) self.old self.new }
    {
        match self.node {
            Some(kept) => {
                if doc.is_before(node, kept) {
                    self.node = Some(node);
                }
            }
            None => self.node = Some(node),
        }
    }

    /// Adds an element where a test of it came out true.
    pub fn add_where(&mut self, doc: Doc<'_>, node: NodeId, test: bool)
        requires within { IsWithin doc self.old }
        requires node { Has doc node }
        ensures { Adds doc.entry (if test then path_in doc.entry node ∷ [] else []) self.old self.new }
    {
        if test {
            self.add(doc, node);
        }
    }
}
