//! The objects of a signature: the octets of its References, its value, certificates, revocation lists and time-stamp tokens
//! (EN 319 132-1, clauses 5.3 to 5.5).
//!
//! The definitions stand in `specs/`; `count_objects` counts those for which there is a limit.
#![tactic(auto)]

mod counting;
mod meeting;

pub use counting::count_objects;
