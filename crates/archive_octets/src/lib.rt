//! The octets that the value and the time-stamps of a signature cover (XML Signature 1.1, section 3.1.2; EN 319 132-1, clauses 5.3 and
//! 5.5.2).
#![tactic(auto)]

mod archives;
mod elements;
mod forms;
mod kinds;
mod listed;
mod reference_texts;
mod signed;
mod stamps;

pub use kinds::StampKind;
pub use signed::signed_octets;
pub use stamps::{next_octets, octets_at};
