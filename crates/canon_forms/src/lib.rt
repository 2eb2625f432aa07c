//! Canonical text of node sets: Canonical XML 1.0 and Exclusive XML Canonicalization 1.0, each with or without comments.
#![tactic(auto)]

mod apexes;
mod lines;
mod nodes;
mod walks;
mod writing;

pub use canon_methods::{Form, Prefixes, read_form};
pub use writing::to_vec;
