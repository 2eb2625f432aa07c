//! All files of a command.

ghost use Rattle.std.specs.Prelude.{◌≡◌, ◌<◌, ◌≤◌, ◌^◌, ℕ, List, length, map, Option, Some, IfOk, IfErr, MatchResult};
ghost use Rattle.xa_io.specs.Shelf.{Files};
ghost use Rattle.whole_files.specs.Asking.{AsksInOrder};
ghost use Rattle.whole_files.specs.Faults.{IsUnread, HasCause, HasGrown, counts_of};
ghost use Rattle.whole_files.specs.Wants.{want_of, held_of, names_of, AreFor, AreHeld};

use crate::fault::Unread;
use crate::file::{File, Wanted};
use crate::read::read_file;
use std::alloc::Global;
use xa_io::Shelf;

// How many bytes are asked for at a call.
const PART: usize = 65536;

// The files, in their order, read with this room.
fn read_all<'a, S: Shelf>(
    alloc: Global,
    shelf: &mut S,
    wanted: &[Wanted<'a>],
    part: &mut [u8],
) -> Result<Vec<File<'a>>, Unread>
    requires { (0 < length part.old) × (length part.old < 2 ^ 32) }
    ensures told { (files : Files) → S.held shelf.old ≡ Some files → MatchResult result (λ all. AreHeld files (map want_of wanted.now) (map held_of all.items)) (λ why. IsUnread files (map want_of wanted.now) why) }
    ensures read { IfOk result (λ all. AreFor (map want_of wanted.now) (map held_of all.items)) }
    ensures cause { IfErr result (λ why. HasCause (map want_of wanted.now) (counts_of S.faults S.misses S.gave shelf.old) (counts_of S.faults S.misses S.gave shelf.new) why) }
    ensures held { S.held shelf.new ≡ S.held shelf.old }
    ensures grown { HasGrown (counts_of S.faults S.misses S.gave shelf.old) (counts_of S.faults S.misses S.gave shelf.new) }
    ensures asked { AsksInOrder (names_of (map want_of wanted.now)) (S.asked shelf.old) (S.asked shelf.new) }
{
    let mut all = Vec::new(alloc);
    for want in wanted {
        let bytes = read_file(alloc, shelf, want.name, want.role.limit(), part)?;
        let file = File {
            role: want.role,
            name: want.name,
            bytes,
        };
        if all.push(file).is_err() {
            return Err(Unread::OutOfMemory);
        }
    }
    Ok(all)
}

/// The files, in their order. Where one isn't read, none after it is asked for.
pub fn read_files<'a, S: Shelf>(
    alloc: Global,
    shelf: &mut S,
    wanted: &[Wanted<'a>],
) -> Result<Vec<File<'a>>, Unread>
    // Where the shelf tells its files, all of them are read, or what is told is the first that isn't there whole.
    ensures told { (files : Files) → S.held shelf.old ≡ Some files → MatchResult result (λ all. AreHeld files (map want_of wanted.now) (map held_of all.items)) (λ why. IsUnread files (map want_of wanted.now) why) }
    ensures read { IfOk result (λ all. AreFor (map want_of wanted.now) (map held_of all.items)) }
    ensures cause { IfErr result (λ why. HasCause (map want_of wanted.now) (counts_of S.faults S.misses S.gave shelf.old) (counts_of S.faults S.misses S.gave shelf.new) why) }

    ensures held { S.held shelf.new ≡ S.held shelf.old }
    ensures grown { HasGrown (counts_of S.faults S.misses S.gave shelf.old) (counts_of S.faults S.misses S.gave shelf.new) }
    ensures asked { AsksInOrder (names_of (map want_of wanted.now)) (S.asked shelf.old) (S.asked shelf.new) }
{
    match vec![in alloc; 0u8; PART] {
        Ok(mut part) => read_all(alloc, shelf, wanted, part.as_mut_slice()),
        Err(_) => Err(Unread::OutOfMemory),
    }
}
