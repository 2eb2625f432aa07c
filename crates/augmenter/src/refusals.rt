//! Why nothing was put into a document.

ghost use Rattle.std.specs.Prelude.{◌≡◌};

use doc_spans::DocFault;
use signature_checks::Code;
use thiserror::Error;
use xa_io::OutOfMemory;

/// Why nothing was put into a document.
#[derive(Debug, Drop, Error)]
pub enum Refusal {
    /// The bytes spell no tree within the limits; the fault isn't want of memory.
    #[error("the document is refused")]
    BadDocument(DocFault),
    /// An item is refused; what has no items refuses as item 0.
    #[error("an item is refused")]
    Refused { item: u32, code: Code },
    /// Memory could not be had.
    #[error("out of memory")]
    OutOfMemory,
}

impl From<OutOfMemory> for Refusal {
    ghost use Rattle.augmenter.specs.declared.refusals.Refusal.TheVariants as refusals;

    ghost from_gives = { λ _ refusal. refusal ≡ refusals.OutOfMemory };

    fn from(_error: OutOfMemory) -> Refusal {
        Refusal::OutOfMemory
    }
}

// A command without items refuses as item 0.
pub(crate) fn refuse(code: Code) -> Refusal
    ensures { result ≡ Refusal.Refused 0 code }
{
    Refusal::Refused { item: 0, code }
}
