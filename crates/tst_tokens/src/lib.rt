//! Time-stamp tokens of RFC 3161 in this profile, read in place.
#![tactic(auto)]

mod certificates;
mod check;
mod digests;
mod fault;
mod laws;
mod layouts;
mod numbers;
mod token;

pub use certificates::Certificates;
pub use check::check_token;
pub use fault::TokenFault;
pub use laws::{digests_are_of_kinds, parts_stand, tokens_are_apart};
pub use token::{Token, read_token, whole_token};
