//! What the signature of a document shows for its judgement, in memory: its objects, its time-stamps with what they cover and whether they
//! are sound, the digests of its References, and whether its value verifies (XML Signature 1.1, section 3.2; EN 319 132-1, clauses 5.2.2 and
//! 5.3 to 5.5).
//!
//! The definitions stand in `specs/`; `build` builds it.
#![tactic(auto)]

mod building;
mod cases;
mod digests;
mod judging;
mod keys;
mod marking;
mod material;
mod stamps;
mod words;

pub use building::build;
pub use cases::{Counted, ReferenceDigest, SignatureCase, SigningCert, StampWord};
pub use words::Soundness;
