//! Why a file wasn't read.

ghost use Rattle.std.specs.Prelude.{◌≡◌, ◌⊎◌};

use std::alloc::Global;
use xa_io::{Name, OutOfMemory};

/// Why a file wasn't read.
#[derive(Clone, Copy, Debug)]
pub enum FileFault {
    /// There is no file of this name.
    NoSuch,
    /// The shelf failed.
    Failed,
    /// So many bytes came, which are more than the limit.
    TooLong { got: u64 },
}

/// What kept the files of a command from being read.
#[derive(Debug, Drop)]
pub enum Unread {
    /// The file of this name wasn't read.
    File { name: Name, fault: FileFault },
    /// Memory could not be had.
    OutOfMemory,
}

// Tells the file of a name and its fault, as far as there is memory for the name.
pub(crate) fn told(alloc: Global, name: &str, fault: FileFault) -> Unread
    ensures { (result ≡ Unread.File name.now fault) ⊎ (result ≡ Unread.OutOfMemory) }
{
    match Name::new(alloc, name) {
        Ok(name) => Unread::File { name, fault },
        Err(OutOfMemory) => Unread::OutOfMemory,
    }
}
