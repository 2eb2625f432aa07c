//! Why a document isn't judged.

ghost use Rattle.std.specs.Prelude.{◌≡◌};

use doc_spans::DocFault;
use thiserror::Error;
use xa_io::OutOfMemory;

/// Why a document isn't judged.
#[derive(Debug, Drop, Error)]
pub enum ValidateFault {
    /// The bytes spell no tree within the limits; the fault isn't want of memory.
    #[error("the document is refused")]
    BadDocument(DocFault),
    /// Memory could not be had.
    #[error("out of memory")]
    OutOfMemory,
}

impl From<OutOfMemory> for ValidateFault {
    ghost use Rattle.xades_validator.specs.declared.faults.ValidateFault.TheVariants as faults;

    ghost from_gives = { λ _ fault. fault ≡ faults.OutOfMemory };

    fn from(_error: OutOfMemory) -> ValidateFault {
        ValidateFault::OutOfMemory
    }
}
