//! What is asked for isn't made.

use sample_world::WorldFault;
use std::alloc::{AllocError, AllocFailed};
use whole_files::Unread;
use xa_io::OutOfMemory;

/// What is asked for isn't made: the words are no such ones, a file isn't there, or memory could not be had.
#[derive(Clone, Copy, Debug)]
pub struct Failed;

impl From<WorldFault> for Failed {
    fn from(_: WorldFault) -> Failed {
        Failed
    }
}

impl From<Unread> for Failed {
    fn from(_: Unread) -> Failed {
        Failed
    }
}

impl From<OutOfMemory> for Failed {
    fn from(_: OutOfMemory) -> Failed {
        Failed
    }
}

impl From<AllocError> for Failed {
    fn from(_: AllocError) -> Failed {
        Failed
    }
}

impl<T: Drop> From<AllocFailed<T>> for Failed {
    fn from(_: AllocFailed<T>) -> Failed {
        Failed
    }
}
