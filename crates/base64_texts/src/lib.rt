//! Base64 as XML Signature's values have it: white space is skipped, and the rest is strict base64 (RFC 4648, section 4, with the
//! padding required and the bits behind the last octet zero).
#![tactic(auto)]

mod decoder;
mod faults;
mod scanner;
mod stages;
mod symbols;
mod taken;

pub use decoder::{Decoder, decode};
pub use faults::Base64Fault;
pub use scanner::Scanner;
