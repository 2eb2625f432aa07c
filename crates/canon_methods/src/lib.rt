//! The four forms of canonical text, the rule by which each writes namespace declarations, and the form that an element names: Canonical
//! XML 1.0 and Exclusive XML Canonicalization 1.0, each with or without comments.
#![tactic(auto)]

mod forms;
mod methods;
mod rules;
mod sought;

pub use forms::Form;
pub use methods::read_form;
pub use rules::{Prefixes, Rule};
