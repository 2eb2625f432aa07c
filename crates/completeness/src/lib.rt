//! Which signer of a signature and of its time-stamps is the first whose certificate has no complete walk to an anchor (RFC 5280, section 6).
//!
//! A walk is complete where it lacks nothing, whatever the times. The definitions stand in `specs/`; the functions of this file have empty
//! bodies, and their contracts are laws.
#![tactic(auto)]

mod signers;
mod walks;

ghost use Rattle.completeness.specs.Laws.{NoneIsAllComplete, OneAnswerFits, SignersAreThere};

pub use walks::{first_incomplete, first_incomplete_by};

/// At most one answer fits.
pub fn one_answer_fits()
    ensures { OneAnswerFits }
{}

/// The signers of a signature are in the pool of its objects.
pub fn signers_are_there()
    ensures { SignersAreThere }
{}

/// No signer is told exactly where all walks are complete.
pub fn none_is_all_complete()
    ensures { NoneIsAllComplete }
{}
