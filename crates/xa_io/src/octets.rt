// What takes bytes and can't fail, or fails only for want of memory.
ghost use Rattle.std.specs.Prelude.{◌≡◌, ◌++◌, List, ℕ, OnOk, OnErr};

use crate::octs::{Octs, OutOfMemory};

/// Takes bytes and can't fail, as a hasher does.
///
/// Its value doesn't determine what was put, so its meaning is a relation. What no `put` changes, as which hash function
/// a hasher computes, is its mark.
pub trait Octets {
    /// The lists of bytes of which the value may tell that they were put.
    ghost holds: { Self → List ℕ → Type 0 };

    /// What no call changes; 0 where there is nothing to keep.
    ghost mark: { Self → ℕ };

    /// Takes the piece, after all that was put before.
    fn put(&mut self, piece: &[u8])
        ensures appends { (bytes : List ℕ) → holds self.old bytes → holds self.new (bytes ++ piece.now) }
        ensures marked { mark self.new ≡ mark self.old };
}

/// Takes bytes, as far as memory can be had.
pub trait TryOctets {
    /// The bytes that were put.
    ghost bytes: { Self → List ℕ };

    /// Takes the piece, after all that was put before. After `OutOfMemory` nothing of it was taken.
    fn put(&mut self, piece: &[u8]) -> Result<(), OutOfMemory>
        ensures ok { OnOk result (bytes self.new ≡ bytes self.old ++ piece.now) }
        ensures err { OnErr result (bytes self.new ≡ bytes self.old) };
}

impl TryOctets for Octs {
    ghost bytes = { λ octs. octs };

    fn put(&mut self, piece: &[u8]) -> Result<(), OutOfMemory> {
        self.push_all(piece)
    }
}
