//! The outside of the program: shelves of files, sinks of bytes, and what the crates above hand on: bytes, names,
//! takers of bytes and counts of steps.
#![tactic(auto)]

mod counts;
mod held_files;
mod listed;
mod memory;
mod name;
mod octets;
mod octs;
mod real;
mod shelf;
mod sink;
mod steps;
mod sure;
mod tlv;

pub use memory::{MemShelf, MemSink};
pub use name::Name;
pub use octets::{Octets, TryOctets};
pub use octs::{Octs, OutOfMemory};
pub use real::{FileShelf, StdSink};
pub use shelf::{Got, Shelf, ShelfFailed};
pub use sink::{Sink, SinkFailed};
pub use steps::Steps;
pub use sure::{SureShelf, SureSink};
pub use tlv::put_tlv;
