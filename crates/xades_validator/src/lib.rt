//! The verdict on the signature of a document, and the report that says why (XML Signature 1.1, section 3.2; EN 319 102-1).
#![tactic(auto)]

mod asked;
mod faults;
mod judging;
mod numbers;
mod reports;
mod validating;

pub use faults::ValidateFault;
pub use reports::Report;
pub use validating::validate;
