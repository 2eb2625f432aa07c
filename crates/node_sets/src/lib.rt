//! Node sets of a document (XML Signature 1.1, section 4.4.3): which of its nodes are signed, digested or written; what names mean at a
//! node, and which element has an identifier.
#![tactic(auto)]

mod identifiers;
mod scopes;
mod sets;

pub use identifiers::{IdAnswer, find_id, is_identifier_name};
pub use scopes::{attribute, in_scope, is_named};
pub use sets::NodeSet;
