//! The answers from which the verdict on a signature and the report are made (XML Signature 1.1, section 3.2; RFC 3161, section 2.4.2; RFC
//! 5280, section 6).
//!
//! Each answer is on what the signature shows, at a moment and by a policy. The definitions stand in `signature_evidence`.
#![tactic(auto)]

mod answering;
mod answers;
mod digests;
mod tokens;
mod walks;

pub use answering::answer;
pub use answers::{Answers, TokenAnswer};
