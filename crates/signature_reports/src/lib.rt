//! The report on what a signature shows, at a moment and by a policy.
//!
//! `report` answers all questions on the signature (signature_verdicts), says what it found part by part, and has it written (report_texts).
#![tactic(auto)]

mod kinds;
mod reports;
mod said;
mod tokens;

pub use reports::{Reported, report};
