//! Policies: which certificates are trusted, and which kinds of signatures and digests are accepted until when.
#![tactic(auto)]

mod accessors;
mod anchors;
mod distinct;
mod entries;
mod fault;
mod fields;
mod lists;
mod policy;
mod reading;

pub use fault::PolicyFault;
pub use policy::Policy;
pub use reading::read_policy;
