//! What an item puts into a document, a signature value, a time-stamp, validation data or an archive time-stamp, and the document that has it:
//! XML Signature 1.1, section 4.3; EN 319 132-1, clauses 5.3, 5.4 and 5.5.
#![tactic(auto)]

ghost use Rattle.item_contents.specs.Materials.{MaterialIsElements, MaterialIsOne};

mod contents;
mod fragments;
mod hosts;
mod items;
mod material;
mod putting;

pub use items::Item;
pub use material::{Material, MaterialFault, split_material};
pub use putting::put_item;

/// Bytes are certificates and revocation lists in one way at most, and then no element of them is bad; else one element is the first that is.
pub fn material_is_one()
    ensures { MaterialIsOne }
{}

/// The certificates and lists of bytes that are whole objects one after another are those among the elements of the bytes.
pub fn material_is_elements()
    ensures { MaterialIsElements }
{}
