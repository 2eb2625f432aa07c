//! The start tag of an element in canonical form, by both rules: Canonical XML 1.0 and Exclusive XML Canonicalization 1.0.
#![tactic(auto)]

mod around;
mod attributes;
mod entries;
mod entry_lists;
mod orders;
mod prefixes;
mod tables;
mod writing;

pub use around::{Around, Outside};
pub use canon_methods::{Prefixes, Rule};
