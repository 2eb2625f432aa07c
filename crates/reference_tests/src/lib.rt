//! Tests of References: base64 texts, chains of transforms, and all References of a signature.
#![tactic(auto)]

#[cfg(test)]
mod chains;
#[cfg(test)]
mod decoding;
#[cfg(test)]
mod whole_references;
