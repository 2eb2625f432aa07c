//! The octets over which the next value or time-stamp of a signature is to be made, or why it can't be (XML Signature 1.1, section 3.1.2;
//! EN 319 132-1, clauses 5.3 and 5.5.2).
#![tactic(auto)]

mod asking;
mod purposes;

pub use asking::octets_for;
pub use purposes::Purpose;
