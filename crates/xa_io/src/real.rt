// The shelf of real files, and sinks that write to a stream.
ghost use Rattle.std.specs.Prelude.{◌≡◌, ℕ, ◌<◌, ◌≤◌, List, Option, None, OnOk, OnErr, is_ok, if◌then◌else◌};
ghost use Rattle.std.specs.Io.KnownBytes.{Appends};
ghost use Rattle.xa_io.specs.Causes.{Rose, counted};
ghost use Rattle.xa_io.specs.Sink.{appended, GaveFirst};
ghost use Rattle.xa_io.specs.Streams.{AppendsFirst};

use crate::counts::count_up;
use crate::shelf::{Got, Shelf, ShelfFailed};
use crate::sink::{Sink, SinkFailed};
use std::fs::File;
use std::io::{ErrorKind, Write};
use std::os::unix::fs::FileExt;
use std::rt::Files;

/// The files of the system. It tells no content.
///
/// Nothing is proved of what the system does: this type and `StdSink` are the trusted edge. The file is opened at each
/// read, so none is kept open between two calls.
#[derive(Drop)]
pub struct FileShelf<'a, R: Files<File = File>> {
    files: &'a R,
    faults: u64,
    misses: u64,
    gave: u64,
}

impl<'a, R: Files<File = File>> FileShelf<'a, R> {
    /// A shelf that has counted nothing yet.
    pub fn new(files: &'a R) -> FileShelf<'a, R>
        ensures faults { ⟦<FileShelf<'a, R> as Shelf>⟧.faults result ≡ 0 }
        ensures misses { ⟦<FileShelf<'a, R> as Shelf>⟧.misses result ≡ 0 }
        ensures gave { ⟦<FileShelf<'a, R> as Shelf>⟧.gave result ≡ 0 }
    {
        FileShelf {
            files,
            faults: 0,
            misses: 0,
            gave: 0,
        }
    }
}

impl<R: Files<File = File>> Shelf for FileShelf<'_, R> {
    ghost held = { λ s. None };

    ghost faults = { λ s. s.faults };

    ghost misses = { λ s. s.misses };

    ghost gave = { λ s. s.gave };

    ghost asked = { λ s. None };

    #[tactic(auto, unfolding(crate::specs::Shelf::also_asked))]
    fn read_at(&mut self, name: &str, at: u64, into: &mut [u8]) -> Result<Got, ShelfFailed> {
        match File::open(self.files, name) {
            Ok(file) => match file.read_at(into, at) {
                Ok(0) => Ok(Got::End),
                Ok(count) => {
                    self.gave = count_up(self.gave, count as u64);
                    Ok(Got::Bytes(count))
                }
                Err(_) => {
                    self.faults = count_up(self.faults, 1);
                    Err(ShelfFailed)
                }
            },
            Err(error) => {
                if error.kind() == ErrorKind::NotFound {
                    self.misses = count_up(self.misses, 1);
                    Ok(Got::NoSuch)
                } else {
                    self.faults = count_up(self.faults, 1);
                    Err(ShelfFailed)
                }
            }
        }
    }
}

// Writes the piece from its front to its end. A write that takes nothing fails.
fn write_whole<W: Write>(to: &mut W, piece: &[u8]) -> Result<(), SinkFailed>
    ensures ok { OnOk result (Appends (W.contents to.old) (W.contents to.new) piece.now) }
    ensures part { OnErr result (AppendsFirst piece.now (W.contents to.old) (W.contents to.new)) }
{
    let mut rest = piece;
    while !rest.is_empty() {
        match to.write(rest) {
            Ok(count) if count > 0 => rest = &rest[count..],
            _ => return Err(SinkFailed),
        }
    }
    Ok(())
}

/// A stream of the system. As a sink it tells nothing; where the stream tells what it holds, `put` appends the whole piece to that,
/// or fails after a first part.
#[derive(Drop)]
pub struct StdSink<W: Write + Drop> {
    to: W,
    faults: u64,
}

impl<W: Write + Drop> StdSink<W> {
    /// A sink that has counted no fault yet.
    pub fn new(to: W) -> StdSink<W>
        ensures { ⟦<StdSink<W> as Sink>⟧.faults result ≡ 0 }
    {
        StdSink { to, faults: 0 }
    }
}

impl<W: Write + Drop> Sink for StdSink<W> {
    ghost given = { λ s. None };

    ghost faults = { λ s. s.faults };

    #[tactic(auto, unfolding(crate::specs::Sink::appended))]
    fn put(&mut self, piece: &[u8]) -> Result<(), SinkFailed>
        ensures ok { OnOk result (None ≡ appended None piece.now) }
        ensures part { OnErr result (GaveFirst piece.now None None) }
        ensures failed { OnErr result (Rose self.old.faults self.new.faults) }
        ensures faults_stay { self.old.faults ≤ self.new.faults }
        ensures whole { OnOk result (Appends (W.contents self.old.to) (W.contents self.new.to) piece.now) }
        ensures first { OnErr result (AppendsFirst piece.now (W.contents self.old.to) (W.contents self.new.to)) }
        ensures counts { self.new.faults ≡ (if is_ok result then self.old.faults else counted self.old.faults 1) }
    {
        match write_whole(&mut self.to, piece) {
            Ok(()) => Ok(()),
            Err(SinkFailed) => {
                self.faults = count_up(self.faults, 1);
                Err(SinkFailed)
            }
        }
    }
}
