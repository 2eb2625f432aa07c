//! The objects of a signature in a case in memory: the octets of its References, its value, certificates, revocation lists and time-stamp
//! tokens (EN 319 132-1, clauses 5.3 to 5.5).
//!
//! The definitions stand in `specs/`; `objects_case` makes the case.
#![tactic(auto)]

mod adding;
mod walking;

pub use adding::add;
pub use walking::{add_property, front_case, objects_case};
