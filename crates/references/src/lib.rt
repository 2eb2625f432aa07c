//! All References of a signature: their targets, chains, octets and digests, or the first fault of one (XML Signature 1.1, section 4.4.3).
#![tactic(auto)]

mod chaining;
mod covering;
mod digests;
mod faults;
mod handing;
mod made_octets;
mod read;
mod rows;
mod targets;
mod values;

pub use covering::self_cover;
pub use digests::digest_ok;
pub use faults::RefFault;
pub use made_octets::octets;
pub use read::read_refs;
pub use reference_chains::Externals;
pub use rows::Refs;
