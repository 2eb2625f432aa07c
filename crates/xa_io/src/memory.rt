// A shelf and a sink in memory, with calls that are to fail.
ghost use Rattle.std.specs.Prelude.{◌≡◌, ℕ, ◌+◌, ◌-◌, ◌<◌, ◌≤◌, ◌↔◌, List, [], ◌∷◌, ◌++◌, length, take, drop, min, Option, None, Some, IsSome, OnOk, OnErr, IfOk, IfSome, IsErr, IsOk, vec_capacity};
ghost use Rattle.xa_io.specs.Sink.{appended};
ghost use Rattle.xa_io.specs.Causes.{Rose};
ghost use Rattle.xa_io.specs.HeldFiles.{look_up};
ghost use Rattle.xa_io.specs.Shelf.{IsAnswer, GivesWithin, MissHasCause, also_asked};
ghost use Rattle.xa_io.specs.Sink.{GaveFirst};

use crate::counts::count_up;
use crate::held_files::{HeldFile, copy_part, look, put_in_front};
use crate::listed::{Listed, find_listed};
use crate::octs::OutOfMemory;
use crate::shelf::{Got, Shelf, ShelfFailed};
use crate::sink::{Sink, SinkFailed};
use std::alloc::{AllocError, Global};

/// Files in memory, with calls that are to fail. It fails exactly at these.
#[derive(Debug, Drop)]
pub struct MemShelf {
    alloc: Global,
    most: usize,
    files: Vec<HeldFile>,
    failing: Vec<Listed>,
    calls: u64,
    faults: u64,
    misses: u64,
    gave: u64,
    ghost gives_some: { 0 < most },
}

impl MemShelf {
    ghost use Rattle.xa_io.specs.Memory.{shelf_files, shelf_listing, shelf_counts, shelf_most};

    /// A shelf with no file and no listed call, which gives at most `most` bytes at a call. It takes no memory.
    pub fn new(alloc: Global, most: usize) -> MemShelf
        requires { 0 < most }
        ensures files { (name : List ℕ) → shelf_files result name ≡ None }
        ensures failing { shelf_listing result ≡ [] }
        ensures counts { shelf_counts result ≡ record { faults = 0; misses = 0; gave = 0; calls = 0 } }
        ensures most { shelf_most result ≡ most }
    {
        MemShelf {
            alloc,
            most,
            files: Vec::new(alloc),
            failing: Vec::new(alloc),
            calls: 0,
            faults: 0,
            misses: 0,
            gave: 0,
        }
    }

    /// Makes these the bytes of the name. After `OutOfMemory` the shelf holds what it held.
    pub fn add(&mut self, name: &str, bytes: &[u8]) -> Result<(), OutOfMemory>
        ensures named { OnOk result (shelf_files self.new name.now ≡ Some bytes.now) }
        ensures others { OnOk result ((other : List ℕ) → (name.now ≡ other → ⊥) → shelf_files self.new other ≡ shelf_files self.old other) }
        ensures failing { shelf_listing self.new ≡ shelf_listing self.old }
        ensures err { OnErr result ((other : List ℕ) → shelf_files self.new other ≡ shelf_files self.old other) }
        ensures counts { shelf_counts self.new ≡ shelf_counts self.old }
        ensures most { shelf_most self.new ≡ shelf_most self.old }
    {
        put_in_front(self.alloc, &mut self.files, name, bytes)
    }

    /// Lists a call as one that fails. Calls are numbered from 1. After `OutOfMemory` the list is as before.
    pub fn fail_at(&mut self, call: u64) -> Result<(), OutOfMemory>
        ensures listed { OnOk result (shelf_listing self.new ≡ shelf_listing self.old ++ record { call = call; keep = 0 } ∷ []) }
        ensures err { OnErr result (shelf_listing self.new ≡ shelf_listing self.old) }
        ensures files { (name : List ℕ) → shelf_files self.new name ≡ shelf_files self.old name }
        ensures counts { shelf_counts self.new ≡ shelf_counts self.old }
        ensures most { shelf_most self.new ≡ shelf_most self.old }
    {
        match self.failing.push(Listed { call, keep: 0 }) {
            Ok(()) => Ok(()),
            Err(_) => Err(OutOfMemory),
        }
    }
}

impl Shelf for MemShelf {
    ghost use Rattle.xa_io.specs.Memory.{shelf_next, shelf_listing, shelf_counts, shelf_most, counted_by, GivesAtMost};

    ghost held = { λ s. Some (look_up s.files.items) };

    ghost faults = { λ s. s.faults };

    ghost misses = { λ s. s.misses };

    ghost gave = { λ s. s.gave };

    ghost asked = { λ s. None };

    #[tactic(auto, unfolding(crate::specs::Shelf::also_asked))]
    fn read_at(&mut self, name: &str, at: u64, into: &mut [u8]) -> Result<Got, ShelfFailed>
        requires { 0 < length into.old }
        ensures same { Some (look_up self.new.files.items) ≡ Some (look_up self.old.files.items) }
        ensures asked { None ≡ also_asked None name.now }
        ensures told { (files : List ℕ → Option (List ℕ)) → Some (look_up self.old.files.items) ≡ Some files → IsAnswer files name.now at into.new result }
        ensures bytes { GivesWithin (length into.old) self.old.gave self.new.gave result }
        ensures no_such { MissHasCause self.old.misses self.new.misses result }
        ensures failed { OnErr result (Rose self.old.faults self.new.faults) }
        ensures faults_stay { self.old.faults ≤ self.new.faults }
        ensures misses_stay { self.old.misses ≤ self.new.misses }
        ensures gave_stays { self.old.gave ≤ self.new.gave }
        ensures exactly { IsErr result ↔ IsSome (shelf_next self.old) }
        ensures counts { shelf_counts self.new ≡ counted_by result (shelf_counts self.old) }
        ensures at_most { GivesAtMost (shelf_most self.old) result }
        ensures failing { shelf_listing self.new ≡ shelf_listing self.old }
        ensures most { shelf_most self.new ≡ shelf_most self.old }
    {
        self.calls = count_up(self.calls, 1);
        if find_listed(&self.failing, self.calls).is_some() {
            self.faults = count_up(self.faults, 1);
            return Err(ShelfFailed);
        }
        match look(&self.files, name) {
            Some(bytes) => {
                let count = copy_part(bytes, at, self.most, into);
                if count == 0 {
                    Ok(Got::End)
                } else {
                    self.gave = count_up(self.gave, count as u64);
                    Ok(Got::Bytes(count))
                }
            }
            None => {
                self.misses = count_up(self.misses, 1);
                Ok(Got::NoSuch)
            }
        }
    }
}

/// Keeps what it is given, in memory that it took when it was made, with calls that are to fail. It fails exactly at
/// these, and where a piece is longer than the room that is left.
#[derive(Debug, Drop)]
pub struct MemSink {
    room: usize,
    bytes: Vec<u8>,
    failing: Vec<Listed>,
    calls: u64,
    faults: u64,
    ghost within: { length bytes.items ≤ room },
    ghost has_room: { room ≤ vec_capacity bytes },
}

impl MemSink {
    ghost use Rattle.xa_io.specs.Memory.{sink_bytes, sink_listing, sink_room, sink_counts};

    /// A sink with room for so many bytes, that was given nothing and has no listed call.
    pub fn new(alloc: Global, room: usize) -> Result<MemSink, OutOfMemory>
        ensures bytes { IfOk result (λ sink. sink_bytes sink ≡ []) }
        ensures room { IfOk result (λ sink. sink_room sink ≡ room) }
        ensures failing { IfOk result (λ sink. sink_listing sink ≡ []) }
        ensures counts { IfOk result (λ sink. sink_counts sink ≡ record { faults = 0; calls = 0 }) }
    {
        match Vec::with_capacity(alloc, room) {
            Ok(bytes) => Ok(MemSink {
                room,
                bytes,
                failing: Vec::new(alloc),
                calls: 0,
                faults: 0,
            }),
            Err(AllocError) => Err(OutOfMemory),
        }
    }

    /// Lists a call as one that fails, and how many bytes of its piece it takes, as far as piece and room have them. Calls
    /// are numbered from 1. Of two listings of a call the first counts. After `OutOfMemory` the list is as before.
    pub fn fail_at(&mut self, call: u64, keep: usize) -> Result<(), OutOfMemory>
        ensures listed { OnOk result (sink_listing self.new ≡ sink_listing self.old ++ record { call = call; keep = keep } ∷ []) }
        ensures err { OnErr result (sink_listing self.new ≡ sink_listing self.old) }
        ensures bytes { sink_bytes self.new ≡ sink_bytes self.old }
        ensures room { sink_room self.new ≡ sink_room self.old }
        ensures counts { sink_counts self.new ≡ sink_counts self.old }
    {
        match self.failing.push(Listed { call, keep }) {
            Ok(()) => Ok(()),
            Err(_) => Err(OutOfMemory),
        }
    }

    /// What the sink was given.
    pub fn as_slice(&self) -> &[u8]
        ensures { result.now ≡ sink_bytes self.now }
    {
        &self.bytes
    }
}

impl Sink for MemSink {
    ghost use Rattle.xa_io.specs.Memory.{sink_bytes, sink_listing, sink_next, sink_room, sink_counts, counted_put};

    ghost given = { λ s. Some s.bytes.items };

    ghost faults = { λ s. s.faults };

    #[tactic(auto, unfolding(crate::specs::Sink::appended))]
    fn put(&mut self, piece: &[u8]) -> Result<(), SinkFailed>
        ensures ok { OnOk result (Some self.new.bytes.items ≡ appended (Some self.old.bytes.items) piece.now) }
        ensures part { OnErr result (GaveFirst piece.now (Some self.old.bytes.items) (Some self.new.bytes.items)) }
        ensures failed { OnErr result (Rose self.old.faults self.new.faults) }
        ensures faults_stay { self.old.faults ≤ self.new.faults }
        ensures kept { IfSome (sink_next self.old) (λ keep. IsErr result × (sink_bytes self.new ≡ sink_bytes self.old ++ take (min keep (sink_room self.old)) piece.now)) }
        ensures too_long { sink_next self.old ≡ None → sink_room self.old < length piece.now → IsErr result × (sink_bytes self.new ≡ sink_bytes self.old) }
        ensures taken { sink_next self.old ≡ None → length piece.now ≤ sink_room self.old → IsOk result }
        ensures counts { sink_counts self.new ≡ counted_put result (sink_counts self.old) }
        ensures failing { sink_listing self.new ≡ sink_listing self.old }
        ensures room { sink_room self.new + length (sink_bytes self.new) ≡ sink_room self.old + length (sink_bytes self.old) }
    {
        self.calls = count_up(self.calls, 1);
        let room = self.room - self.bytes.len();
        match find_listed(&self.failing, self.calls) {
            Some(keep) => {
                let count = keep.min(room).min(piece.len());
                let _ = self.bytes.extend_from_slice(&piece[..count]);
                self.faults = count_up(self.faults, 1);
                Err(SinkFailed)
            }
            None => {
                if piece.len() > room {
                    self.faults = count_up(self.faults, 1);
                    return Err(SinkFailed);
                }
                match self.bytes.extend_from_slice(piece) {
                    Ok(()) => Ok(()),
                    Err(AllocError) => unreachable!(),
                }
            }
        }
    }
}
