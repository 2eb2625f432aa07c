// Bytes on the heap.
ghost use Rattle.std.specs.Prelude.{◌≡◌, List, ℕ, [], ◌++◌, OnOk, OnErr, length, take};
ghost use Rattle.xa_io.specs.Bytes.{IsBytes};

use std::alloc::{AllocError, Global};
use std::marker::Model;

/// Memory could not be had.
#[derive(Clone, Copy, Debug, PartialEq, Eq)]
pub struct OutOfMemory;

/// A list of bytes.
#[derive(Debug, Drop)]
pub struct Octs {
    bytes: Vec<u8>,
}

impl Model for Octs {
    ghost Value = { List ℕ };

    ghost view = { λ o. o.bytes.items };
}

impl Octs {
    /// The empty list. It takes no memory.
    pub fn new(alloc: Global) -> Octs
        ensures { result ≡ [] }
    {
        Octs {
            bytes: Vec::new(alloc),
        }
    }

    /// Appends the bytes. After `OutOfMemory` the list is as before.
    pub fn push_all(&mut self, bytes: &[u8]) -> Result<(), OutOfMemory>
        ensures ok { OnOk result (self.new ≡ self.old ++ bytes.now) }
        ensures err { OnErr result (self.new ≡ self.old) }
    {
        match self.bytes.extend_from_slice(bytes) {
            Ok(()) => Ok(()),
            Err(AllocError) => Err(OutOfMemory),
        }
    }

    /// The bytes, each below 256.
    pub fn as_slice(&self) -> &[u8]
        ensures value { result.now ≡ self.now }
        ensures bytes { IsBytes self.now }
    {
        same_bytes(self.bytes.as_slice())
    }

    // How many bytes there are.
    pub(crate) fn len(&self) -> usize
        ensures { result ≡ length self.now }
    {
        self.bytes.len()
    }

    // Keeps the first bytes alone.
    pub(crate) fn truncate(&mut self, count: usize)
        ensures { self.new ≡ take count self.old }
    {
        self.bytes.truncate(count);
    }
}

// The same bytes. A byte that is passed in is known to be below 256, and one that a model hides isn't.
fn same_bytes(bytes: &[u8]) -> &[u8]
    ensures value { result.now ≡ bytes.now }
    ensures bytes { IsBytes bytes.now }
{
    bytes
}
