//! The first fault of a signature's shape.

ghost use Rattle.std.specs.Prelude.{◌≡◌, None};
ghost use Rattle.signature_shape.specs.Faults.{what_in, fault_in, with_line, HasFault};
ghost use Rattle.signature_parts.specs.Places.{place_in, IsWithin};

use crate::what::What;
use doc_spans::{Doc, NodeId};
use signature_parts::FirstPlace;

/// A fault of a signature's shape: a line of the shape, and the element at which it is broken.
#[derive(Clone, Copy)]
pub struct ShapeFault {
    /// The element.
    pub node: NodeId,
    /// The line.
    pub what: What,
}

/// The first fault of the lines so far: the one whose element stands first in document order, and of several there that of the first line.
#[derive(Clone, Copy)]
pub struct Faults {
    pub(crate) first: Option<ShapeFault>,
}

impl Faults {
    /// No fault.
    pub fn none() -> Faults
        ensures { result.first ≡ None }
    {
        Faults { first: None }
    }

    /// The first fault of those lines.
    pub fn first(self) -> Option<ShapeFault>
        ensures { result ≡ self.first }
    {
        self.first
    }

    /// Adds the faults of the next line by the first place that it gave.
    pub fn add_line(&mut self, doc: Doc<'_>, what: What, place: FirstPlace)
        requires has { HasFault doc self.old.first }
        requires within { IsWithin doc place }
        ensures fault { fault_in doc.entry self.new.first ≡ with_line (what_in what) (place_in doc.entry place) (fault_in doc.entry self.old.first) }
        ensures has { HasFault doc.entry self.new.first }
    {
        if let Some(node) = place.node() {
            let fault = ShapeFault { node, what };
            match self.first {
                Some(kept) => {
                    if doc.is_before(node, kept.node) {
                        self.first = Some(fault);
                    }
                }
                None => self.first = Some(fault),
            }
        }
    }
}
