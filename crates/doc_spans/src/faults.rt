//! Why bytes spell no document.

ghost use Rattle.std.specs.Prelude.{◌≡◌};
ghost use Rattle.doc_spans.specs.declared.faults.DocFault.TheVariants.{OutOfMemory};

use std::alloc::AllocError;

/// Why a text is no document within the limits: the first fault, with its place, which is the end of the longest run of legal items.
#[derive(Clone, Copy, PartialEq, Eq, Debug)]
pub enum DocFault {
    /// No legal item stands at the place, or it is cut.
    Item { at: u32 },
    /// A document type declaration stands there, before the document element.
    Doctype { at: u32 },
    /// An element stands there that would be deeper than 256, where the document element has depth 1.
    Depth { at: u32 },
    /// An item stands there that would pass 1,048,576 nodes, attributes and declarations among them.
    Nodes { at: u32 },
    /// The text ends before the document does.
    End,
    /// There was no memory.
    OutOfMemory,
}

impl DocFault {
    ghost use Rattle.doc_spans.specs.Faults.{fault_number, fault_place};

    /// The fault's number in what the program says of it.
    pub fn number(&self) -> u8
        ensures { result ≡ fault_number self.now }
    {
        match self {
            DocFault::Item { .. } => 1,
            DocFault::Doctype { .. } => 2,
            DocFault::Depth { .. } => 3,
            DocFault::Nodes { .. } => 4,
            DocFault::End => 5,
            DocFault::OutOfMemory => 6,
        }
    }

    /// The fault's place, from 0, where it has one.
    pub fn place(&self) -> Option<u32>
        ensures { result ≡ fault_place self.now }
    {
        match self {
            DocFault::Item { at }
            | DocFault::Doctype { at }
            | DocFault::Depth { at }
            | DocFault::Nodes { at } => Some(*at),
            DocFault::End | DocFault::OutOfMemory => None,
        }
    }
}

impl From<AllocError> for DocFault {
    ghost from_gives = { λ _ e. e ≡ OutOfMemory };

    fn from(_e: AllocError) -> DocFault {
        DocFault::OutOfMemory
    }
}
