//! Why an object isn't put into a case.

use std::alloc::{AllocError, AllocFailed};
use xa_io::OutOfMemory;

/// Why an object isn't put into a case, or a policy isn't made.
#[derive(Clone, Copy, Debug, PartialEq, Eq)]
pub enum CaseFault {
    /// The octets aren't one whole object of the kind that is wanted.
    Shape,
    /// The token doesn't hold the certificate of its signer.
    NoSigner,
    /// A number that is to be covered is none of an object of the case.
    NoObject,
    /// The case has 2^32 - 1 objects.
    Full,
    /// Memory could not be had.
    OutOfMemory,
}

impl From<AllocError> for CaseFault {
    ghost use Rattle.std.specs.Prelude.{◌≡◌};
    ghost use Rattle.sample_cases.specs.declared.fault.CaseFault.TheVariants.{OutOfMemory};

    ghost from_gives = { λ _ fault. fault ≡ OutOfMemory };

    fn from(_: AllocError) -> CaseFault {
        CaseFault::OutOfMemory
    }
}

impl<T: Drop> From<AllocFailed<T>> for CaseFault {
    ghost use Rattle.std.specs.Prelude.{◌≡◌};
    ghost use Rattle.sample_cases.specs.declared.fault.CaseFault.TheVariants.{OutOfMemory};

    ghost from_gives = { λ _ fault. fault ≡ OutOfMemory };

    fn from(_: AllocFailed<T>) -> CaseFault {
        CaseFault::OutOfMemory
    }
}

impl From<OutOfMemory> for CaseFault {
    ghost use Rattle.std.specs.Prelude.{◌≡◌};
    ghost use Rattle.sample_cases.specs.declared.fault.CaseFault.TheVariants.{OutOfMemory};

    ghost from_gives = { λ _ fault. fault ≡ OutOfMemory };

    fn from(_: OutOfMemory) -> CaseFault {
        CaseFault::OutOfMemory
    }
}
