//! Documents as spans: the tree that bytes spell, as a flat list of places in them.
#![tactic(auto)]

mod attributes;
mod building;
mod child_nodes;
pub mod declarations;
mod documents;
mod faults;
mod open_tags;
pub mod opened;
mod parts;
mod reading;
mod readings;
mod rows;
pub mod scopes;
mod soundness;
pub mod stacks;
mod standing;
mod tabled;
mod text_items;
mod texts;
mod trees;

pub use attributes::{Attr, Attrs};
pub use child_nodes::Children;
pub use documents::{Doc, NodeId, Span};
pub use faults::DocFault;
pub use open_tags::OpenTag;
pub use rows::Kind;
pub use texts::{Piece, Pieces};
pub use trees::Tree;
