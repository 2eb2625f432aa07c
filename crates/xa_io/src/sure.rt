// A shelf and a sink that never fail.
ghost use Rattle.std.specs.Prelude.{◌≡◌, ◌<◌, ◌≤◌, ℕ, List, Option, None, Some, IsOk, OnOk, OnErr, length};
ghost use Rattle.xa_io.specs.HeldFiles.{look_up};
ghost use Rattle.xa_io.specs.Shelf.{IsAnswer, GivesWithin, MissHasCause, also_asked};
ghost use Rattle.xa_io.specs.Sink.{appended};

use crate::counts::count_up;
use crate::held_files::{HeldFile, copy_part, look, put_in_front};
use crate::octs::OutOfMemory;
use crate::shelf::{Got, Shelf, ShelfFailed};
use crate::sink::{Sink, SinkFailed};
use std::alloc::Global;

/// Files in memory. It never fails, so its count of faults is 0.
#[derive(Debug, Drop)]
pub struct SureShelf {
    alloc: Global,
    most: usize,
    files: Vec<HeldFile>,
    misses: u64,
    gave: u64,
    ghost gives_some: { 0 < most },
}

impl SureShelf {
    ghost use Rattle.xa_io.specs.Sure.{sure_files, sure_counts, sure_most};

    /// A shelf with no file, which gives at most `most` bytes at a call. It takes no memory.
    pub fn new(alloc: Global, most: usize) -> SureShelf
        requires { 0 < most }
        ensures files { (name : List ℕ) → sure_files result name ≡ None }
        ensures counts { sure_counts result ≡ record { misses = 0; gave = 0 } }
        ensures most { sure_most result ≡ most }
    {
        SureShelf {
            alloc,
            most,
            files: Vec::new(alloc),
            misses: 0,
            gave: 0,
        }
    }

    /// Makes these the bytes of the name. After `OutOfMemory` the shelf holds what it held.
    pub fn add(&mut self, name: &str, bytes: &[u8]) -> Result<(), OutOfMemory>
        ensures named { OnOk result (sure_files self.new name.now ≡ Some bytes.now) }
        ensures others { OnOk result ((other : List ℕ) → (name.now ≡ other → ⊥) → sure_files self.new other ≡ sure_files self.old other) }
        ensures err { OnErr result ((other : List ℕ) → sure_files self.new other ≡ sure_files self.old other) }
        ensures counts { sure_counts self.new ≡ sure_counts self.old }
        ensures most { sure_most self.new ≡ sure_most self.old }
    {
        put_in_front(self.alloc, &mut self.files, name, bytes)
    }
}

impl Shelf for SureShelf {
    ghost use Rattle.xa_io.specs.Memory.{GivesAtMost};
    ghost use Rattle.xa_io.specs.Sure.{sure_counts, sure_most, counted_by};

    ghost held = { λ s. Some (look_up s.files.items) };

    ghost faults = { λ s. 0 };

    ghost misses = { λ s. s.misses };

    ghost gave = { λ s. s.gave };

    ghost asked = { λ s. None };

    #[tactic(auto, unfolding(crate::specs::Shelf::also_asked))]
    fn read_at(&mut self, name: &str, at: u64, into: &mut [u8]) -> Result<Got, ShelfFailed>
        requires { 0 < length into.old }
        ensures same { Some (look_up self.new.files.items) ≡ Some (look_up self.old.files.items) }
        ensures asked { None ≡ also_asked None name.now }
        ensures told { (files : List ℕ → Option (List ℕ)) → Some (look_up self.old.files.items) ≡ Some files → IsAnswer files name.now at into.new result }
        ensures bytes { GivesWithin (length into.old) self.old.gave self.new.gave result }
        ensures no_such { MissHasCause self.old.misses self.new.misses result }
        ensures failed { IsOk result }
        ensures misses_stay { self.old.misses ≤ self.new.misses }
        ensures gave_stays { self.old.gave ≤ self.new.gave }
        ensures counts { sure_counts self.new ≡ counted_by result (sure_counts self.old) }
        ensures at_most { GivesAtMost (sure_most self.old) result }
        ensures most { sure_most self.new ≡ sure_most self.old }
    {
        match look(&self.files, name) {
            Some(bytes) => {
                let count = copy_part(bytes, at, self.most, into);
                if count == 0 {
                    Ok(Got::End)
                } else {
                    self.gave = count_up(self.gave, count as u64);
                    Ok(Got::Bytes(count))
                }
            }
            None => {
                self.misses = count_up(self.misses, 1);
                Ok(Got::NoSuch)
            }
        }
    }
}

/// Takes all, keeps nothing and tells nothing. It never fails, so its count of faults is 0.
#[derive(Clone, Copy, Debug)]
pub struct SureSink;

impl SureSink {
    /// The sink.
    pub fn new() -> SureSink {
        SureSink
    }
}

impl Sink for SureSink {
    ghost given = { λ s. None };

    ghost faults = { λ s. 0 };

    #[tactic(auto, unfolding(crate::specs::Sink::appended))]
    fn put(&mut self, _piece: &[u8]) -> Result<(), SinkFailed> {
        Ok(())
    }
}
