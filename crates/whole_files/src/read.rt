//! One whole file.

ghost use Rattle.std.specs.Prelude.{◌≡◌, ◌+◌, ◌^◌, ◌<◌, ◌≤◌, ℕ, List, Option, Some, length};
ghost use Rattle.xa_io.specs.Shelf.{Files};
ghost use Rattle.whole_files.specs.Asking.{asked_times};
ghost use Rattle.whole_files.specs.Faults.{IsRead, IsCaused, HasGrown, counts_of};

use crate::fault::{FileFault, Unread, told};
use std::alloc::Global;
use xa_io::{Got, Octs, OutOfMemory, Shelf, ShelfFailed};

// The bytes of a file, at most `limit`. The shelf is asked at rising places, with `part` as the room for its answers, until
// the end of the file or until more than the limit came.
pub(crate) fn read_file<S: Shelf>(
    alloc: Global,
    shelf: &mut S,
    name: &str,
    limit: u64,
    part: &mut [u8],
) -> Result<Octs, Unread>
    requires limit { limit < 2 ^ 32 }
    requires room { (0 < length part.old) × (length part.old < 2 ^ 32) }
    ensures told { (files : Files) → S.held shelf.old ≡ Some files → IsRead files name.now limit result }
    ensures caused { IsCaused name.now limit (counts_of S.faults S.misses S.gave shelf.old) (counts_of S.faults S.misses S.gave shelf.new) result }
    ensures held { S.held shelf.new ≡ S.held shelf.old }
    ensures grown { HasGrown (counts_of S.faults S.misses S.gave shelf.old) (counts_of S.faults S.misses S.gave shelf.new) }
    ensures most { S.gave shelf.new ≤ S.gave shelf.old + (limit + length part.old) }
    ensures asked { (n : ℕ) × (S.asked shelf.new ≡ asked_times (S.asked shelf.old) name.now n) }
{
    let mut octs = Octs::new(alloc);
    let mut at: u64 = 0;
    'turns: loop {
        match shelf.read_at(name, at, part) {
            Ok(Got::Bytes(count)) => {
                at += count as u64;
                if at > limit {
                    return Err(told(alloc, name, FileFault::TooLong { got: at }));
                }
                match octs.push_all(&part[..count]) {
                    Ok(()) => {}
                    Err(OutOfMemory) => return Err(Unread::OutOfMemory),
                }
            }
            Ok(Got::End) => return Ok(octs),
            Ok(Got::NoSuch) => return Err(told(alloc, name, FileFault::NoSuch)),
            Err(ShelfFailed) => return Err(told(alloc, name, FileFault::Failed)),
        }
    }
}
