//! The top call of `xades`: what words ask, of which files, what is given out, and with which status it ends.
#![tactic(auto)]

mod answers;
mod attach;
mod canon;
mod commands;
mod documents;
mod drafting;
mod handing;
mod lines;
mod octets;
mod prepare;
mod runs;
mod status;
mod stop;
mod validate;

pub use augmenter::Code;
pub use commands::outcomes_are_one;
pub use runs::{carry_out, run};
pub use status::{Ended, Status};
