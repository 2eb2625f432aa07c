//! Signatures that are made: the unsigned signature that a draft puts into a document, what is attached to it later, and why it can't be put
//! in (XML Signature 1.1, section 3.1; EN 319 132-1, clauses 4 and 5).
#![tactic(auto)]

mod attaching;
mod items;
mod judging;
mod laws;
mod named_octets;
mod preparing;
mod reading;
mod refusals;
mod taken;
mod targets;

pub use attaching::attach;
pub use items::{Item, ItemKind};
pub use laws::answers_are_one;
pub use preparing::prepare;
pub use refusals::Refusal;
pub use signature_checks::Code;
pub use signature_drafts::Draft;
