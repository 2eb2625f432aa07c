// A shelf of files, read a part at a time.
ghost use Rattle.std.specs.Prelude.{◌≡◌, ◌<◌, ◌≤◌, List, ℕ, length, Option, Some, OnErr};
ghost use Rattle.xa_io.specs.Causes.{Rose};

/// What a read came to.
#[derive(Clone, Copy, Debug, PartialEq, Eq)]
pub enum Got {
    /// So many bytes, at least one.
    Bytes(usize),
    /// The place is at or past the end.
    End,
    /// There is no file of this name.
    NoSuch,
}

/// The shelf failed.
#[derive(Clone, Copy, Debug, PartialEq, Eq)]
pub struct ShelfFailed;

/// Files by name, read a part at a time.
///
/// Its counts never fall, and stand still at the last value of a `u64`: an answer that needs a rise may then come without
/// one.
pub trait Shelf {
    ghost use Rattle.xa_io.specs.Shelf.{Files, IsAnswer, GivesWithin, MissHasCause, also_asked};

    /// The files, where the shelf tells them.
    ghost held: { Self → Option (List ℕ → Option (List ℕ)) };

    /// How often it failed.
    ghost faults: { Self → ℕ };

    /// How often a file was asked for that isn't there.
    ghost misses: { Self → ℕ };

    /// How many bytes it gave.
    ghost gave: { Self → ℕ };

    /// The names that it was asked for, one a read, in their order, where it tells them.
    ghost asked: { Self → Option (List (List ℕ)) };

    /// Reads a part of a file from a place on. `into` isn't empty.
    ///
    /// `Bytes(n)` means that the first `n` bytes of `into` are those of the file from `at` on; `End` that `at` is at or past
    /// its end; `NoSuch` that there is no such file. Each is said where the shelf tells its files. After `ShelfFailed`
    /// nothing is said of `into`.
    fn read_at(&mut self, name: &str, at: u64, into: &mut [u8]) -> Result<Got, ShelfFailed>
        requires { 0 < length into.old }
        ensures same { held self.new ≡ held self.old }
        ensures asked { asked self.new ≡ also_asked (asked self.old) name.now }
        ensures told { (files : List ℕ → Option (List ℕ)) → held self.old ≡ Some files → IsAnswer files name.now at into.new result }
        ensures bytes { GivesWithin (length into.old) (gave self.old) (gave self.new) result }
        ensures no_such { MissHasCause (misses self.old) (misses self.new) result }
        ensures failed { OnErr result (Rose (faults self.old) (faults self.new)) }
        ensures faults_stay { faults self.old ≤ faults self.new }
        ensures misses_stay { misses self.old ≤ misses self.new }
        ensures gave_stays { gave self.old ≤ gave self.new };
}
