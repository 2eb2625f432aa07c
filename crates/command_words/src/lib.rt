//! The words of the program's commands: what they ask, and the files that they name.
#![tactic(auto)]

mod attaching;
mod faults;
mod parts;
mod preparing;
mod validating;
mod wanting;
mod wants;
mod words;

pub use attaching::{Attachment, attachment_by, attachments_are_sound, files_to_attach};
pub use faults::WordsFault;
pub use preparing::{Preparation, files_to_prepare, preparation_by, preparations_are_sound};
pub use validating::{Validation, files_to_validate, validation_by, validations_are_sound};
pub use wanting::wanted_by;
pub use words::{Command, Method, read_words};
