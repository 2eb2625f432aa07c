//! Want of memory, or of keys that are not spent.

use sample_cases::CaseFault;
use sample_world::WorldFault;
use std::alloc::{AllocError, AllocFailed};
use xa_io::OutOfMemory;

/// What is measured can't be built.
#[derive(Clone, Copy, Debug)]
pub struct Failed;

impl From<WorldFault> for Failed {
    fn from(_: WorldFault) -> Failed {
        Failed
    }
}

impl From<CaseFault> for Failed {
    fn from(_: CaseFault) -> Failed {
        Failed
    }
}

impl From<OutOfMemory> for Failed {
    fn from(_: OutOfMemory) -> Failed {
        Failed
    }
}

impl From<AllocError> for Failed {
    fn from(_: AllocError) -> Failed {
        Failed
    }
}

impl<T: Drop> From<AllocFailed<T>> for Failed {
    fn from(_: AllocFailed<T>) -> Failed {
        Failed
    }
}
