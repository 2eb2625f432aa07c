//! Elements of a document where they stand, and what they hold: the words that the parts of signatures are read by.
#![tactic(auto)]

mod attributes;
mod child_elements;
mod counting;
mod digest_methods;
mod finding;
mod held_texts;
mod named_elements;
mod names;
mod pointing;
mod text_pieces;

pub use attributes::{attribute, has_attribute};
pub use child_elements::ChildElements;
pub use counting::{SignatureCount, counted};
pub use digest_methods::digest_kind;
pub use finding::{called, elements, first_called, first_in};
pub use held_texts::{has_stray_text, is_blank, is_text_alone, texts};
pub use named_elements::NamedElements;
pub use names::{DS, ElementName, XADES, XADESV141, ds, is_called, is_element, xades, xadesv141};
pub use pointing::points_to;
pub use text_pieces::TextPieces;
