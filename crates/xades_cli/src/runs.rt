// The top call.
ghost use Rattle.std.specs.Prelude.{◌≡◌, ℕ, List, Option, Some, map, string_bytes, Result};
ghost use Rattle.xa_io.specs.Causes.{Rose};
ghost use Rattle.xa_io.specs.Shelf.{Files};
ghost use Rattle.whole_files.specs.Asking.{AsksInOrder};
ghost use Rattle.whole_files.specs.Faults.{HasGrown, counts_of};
ghost use Rattle.whole_files.specs.Wants.{names_of};
ghost use Rattle.command_words.specs.Asked.{asked_by};
ghost use Rattle.command_words.specs.Files.{wants_of};
ghost use Rattle.xades_cli.specs.Judging.{IsJudged, IsJudgedRight, HasStopCause};
ghost use Rattle.xades_cli.specs.Lines.{IsSized, Tells};
ghost use Rattle.xades_cli.specs.Runs.{IsRun, OnQuiet, shelf_state, sink_state};

use crate::answers::{Answer, give};
use crate::commands::compute;
use crate::lines::say;
use crate::status::{Ended, Status, ended_by};
use crate::stop::Stop;
use command_words::{read_words, wanted_by};
use std::alloc::Global;
use whole_files::read_files;
use xa_io::{Shelf, Sink};

// Reads the words and the files that they want, and computes what the command gives out.
fn judge<S: Shelf>(alloc: Global, words: &[String], shelf: &mut S) -> Result<Answer, Stop>
    ensures judged { IsJudged (map string_bytes words.now) result }
    ensures told { (files : Files) → S.held shelf.old ≡ Some files → IsJudgedRight (asked_by (map string_bytes words.now)) files result }
    ensures cause { HasStopCause (wants_of (asked_by (map string_bytes words.now))) (counts_of S.faults S.misses S.gave shelf.old) (counts_of S.faults S.misses S.gave shelf.new) result }
    ensures asked { AsksInOrder (names_of (wants_of (asked_by (map string_bytes words.now)))) (S.asked shelf.old) (S.asked shelf.new) }
    ensures held { S.held shelf.new ≡ S.held shelf.old }
    ensures grown { HasGrown (counts_of S.faults S.misses S.gave shelf.old) (counts_of S.faults S.misses S.gave shelf.new) }
{
    let command = read_words(alloc, words)?;
    let wanted = wanted_by(alloc, &command)?;
    let files = read_files(alloc, shelf, wanted.as_slice())?;
    compute(alloc, &command, files)
}

/// Carries out what the words after the program's name ask, and tells how it ended.
///
/// All that takes memory is done before the first byte is given out: a status other than `Done`, `No` and `WriteFault` leaves `out` as it
/// was.
pub fn carry_out<S: Shelf, O: Sink>(
    alloc: Global,
    words: &Vec<String>,
    shelf: &mut S,
    out: &mut O,
) -> Ended
    ensures run { IsRun (map string_bytes words.now.items) (shelf_state S.held S.faults S.misses S.gave S.asked shelf.old) (shelf_state S.held S.faults S.misses S.gave S.asked shelf.new)
        (sink_state O.given O.faults out.old) (sink_state O.given O.faults out.new) result.status }
    ensures quiet { OnQuiet result.status (out.new ≡ out.old) }

    // Where the shelf tells its files, the size that goes with a fault of the document is the document's.
    ensures sized { (files : Files) → S.held shelf.old ≡ Some files → IsSized (asked_by (map string_bytes words.now.items)) files result.status result.size }
{
    match judge(alloc, words.as_slice(), shelf) {
        Ok(answer) => Ended {
            status: give(out, &answer),
            size: 0,
        },
        Err(stop) => ended_by(stop),
    }
}

/// Carries out what the words after the program's name ask, as `carry_out` does, and then puts the line of the status on `err`, as far as
/// `err` takes it.
pub fn run<S: Shelf, O: Sink, E: Sink>(
    alloc: Global,
    words: &Vec<String>,
    shelf: &mut S,
    out: &mut O,
    err: &mut E,
) -> Status
    ensures run { IsRun (map string_bytes words.now.items) (shelf_state S.held S.faults S.misses S.gave S.asked shelf.old) (shelf_state S.held S.faults S.misses S.gave S.asked shelf.new)
        (sink_state O.given O.faults out.old) (sink_state O.given O.faults out.new) result }
    ensures quiet { OnQuiet result (out.new ≡ out.old) }

    // The line of the status was given to err, or a first part of it where its faults rose.
    ensures line { Tells (asked_by (map string_bytes words.now.items)) (S.held shelf.old) result (E.given err.old) (E.given err.new) (E.faults err.old) (E.faults err.new) }
{
    let ended = carry_out(alloc, words, shelf, out);
    say(err, &ended.status, ended.size);
    ended.status
}
