//! The lines of a signature's shape on what its properties, its key, its value and its time-stamps hold (XML Signature 1.1, section 4; EN
//! 319 132-1, clauses 4.4 and 5): each gives the first place of its faults.
#![tactic(auto)]

mod covered;
mod data_object;
mod data_objects;
mod formats;
mod identifying;
mod key;
mod signed;
mod stamp;
mod typed;
mod value;
mod values;

pub use covered::covered_line;
pub use data_object::data_object_line;
pub use key::key_line;
pub use signed::signed_line;
pub use stamp::stamp_line;
pub use value::value_line;
pub use values::values_line;
