//! A law on files that are held.

ghost use Rattle.std.specs.Prelude.{◌≡◌, List};
ghost use Rattle.xa_io.specs.Shelf.{Files};
ghost use Rattle.whole_files.specs.Wants.{Want, Held, AreHeld};

/// The law that a shelf has the files of some wants in one way alone.
pub fn held_files_are_one()
    ensures { (shelf : Files) (wants : List Want) (one two : List Held) → AreHeld shelf wants one → AreHeld shelf wants two → one ≡ two }
{}
