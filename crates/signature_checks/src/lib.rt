//! What is asked of a signature before something is attached to it, or judged: its parts, its References, and whether all that it says is
//! right; and the codes of what isn't (XML Signature 1.1, section 3.2; EN 319 132-1, clauses 4 and 5).
#![tactic(auto)]

mod codes;
mod keys;
mod objections;
mod opening;
mod validity;

pub use codes::Code;
pub use keys::judge_method;
pub use objections::Objection;
pub use opening::{Opened, is_signed, open};
pub use validity::{digest_of, judge_validity};
