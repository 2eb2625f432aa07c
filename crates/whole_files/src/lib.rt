//! Whole files, read by the names that the words of a command give, each within the limit of its role.
#![tactic(auto)]

mod document;
mod fault;
mod file;
mod laws;
mod plan;
mod policy;
mod read;
mod role;

pub use document::document_of;
pub use fault::{FileFault, Unread};
pub use file::{File, Wanted};
pub use laws::held_files_are_one;
pub use plan::read_files;
pub use policy::policy_of;
pub use role::Role;
