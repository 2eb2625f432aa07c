//! The words of a command line: which patterns they fit, and the first word with which none goes on.
#![tactic(auto)]

mod fitting;
mod keyed;
mod keys;
mod lookup;
mod patterns;
mod search;
mod text_forms;

pub use fitting::texts_fit;
pub use keyed::keyed_texts;
pub use lookup::{text_behind, texts_behind};
pub use patterns::{Part, WordForm};
pub use search::faulty_word;
pub use text_forms::TextForm;
