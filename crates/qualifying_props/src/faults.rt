//! Why a document has no signature with parts.

ghost use Rattle.std.specs.Prelude.{◌≡◌};

use signature_shape::What;
use xa_io::OutOfMemory;

/// Why a document has no signature with parts: the first of these that holds. Places are those of the first byte of an element, from 0.
#[derive(Clone, Copy, Debug, PartialEq, Eq)]
pub enum PartFault {
    /// No element of the document is a `Signature`.
    NoSignature,
    /// More than one is, those inside another one aside.
    Several,
    /// The shape of the signature is broken in a line, at an element.
    Shape {
        /// Where the element begins.
        at: u32,
        /// The line.
        what: What,
    },
    /// A time-stamp has an `Include`, and this is the first one (EN 319 132-1, clause 5.1.4).
    Include {
        /// Where the element begins.
        at: u32,
    },
    /// The text of an element isn't base64 of one whole certificate, CRL or token, and this is the first such element.
    PropertyData {
        /// Where the element begins.
        at: u32,
    },
    /// Memory could not be had.
    OutOfMemory,
}

impl From<OutOfMemory> for PartFault {
    ghost use Rattle.qualifying_props.specs.declared.faults.PartFault.TheVariants.{OutOfMemory};

    ghost from_gives = { λ _ e. e ≡ OutOfMemory };

    fn from(_: OutOfMemory) -> PartFault {
        PartFault::OutOfMemory
    }
}
