//! Characters as canonical text writes them, in text, attribute values, comments and processing instructions: Canonical XML 1.0,
//! section 2.3.
#![tactic(auto)]

mod escapes;
mod markup;
mod places;

pub use escapes::{put_text, put_value};
pub use markup::{put_comment, put_instruction};
