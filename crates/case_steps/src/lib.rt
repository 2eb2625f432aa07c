//! How a case in memory comes to show the evidence of a signature.
//!
//! The definitions stand in `specs/`. The functions of this file have empty bodies, and their contracts are laws; `put_part` and `put_token`
//! are the two steps in code.
#![tactic(auto)]

mod putting;

ghost use Rattle.case_steps.specs.Built.{NewCaseShows, PartIsAdded, TokenIsAdded, EarliestAreThose};

pub use putting::{put_part, put_token};

/// A new case shows the octets of its References and the value.
pub fn new_case_shows()
    ensures { NewCaseShows }
{}

/// A certificate or revocation list that is added is put behind the objects that are shown, unless it is one of them.
pub fn part_is_added()
    ensures { PartIsAdded }
{}

/// So is a token.
pub fn token_is_added()
    ensures { TokenIsAdded }
{}

/// The earliest times of a case in memory are those of the case of the evidence.
pub fn earliest_are_those()
    ensures { EarliestAreThose }
{}
