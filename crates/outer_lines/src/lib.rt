//! The lines of a signature's shape on its parts and on where its properties stand (XML Signature 1.1, section 4; EN 319 132-1, clauses
//! 4.3 and 4.4): each gives the first place of its faults.
#![tactic(auto)]

mod form;
mod info;
mod method;
mod parts;
mod properties;
mod qualifying;
mod reference;

pub use form::form_line;
pub use info::info_line;
pub use method::method_line;
pub use parts::parts_line;
pub use properties::properties_line;
pub use qualifying::qualifying_line;
pub use reference::reference_line;
