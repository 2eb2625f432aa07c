//! The one signature of a document with all its parts, or the first thing that is wrong.
#![tactic(auto)]

mod beginnings;
mod collecting;
mod decoding;
mod faults;
mod includes;
mod kinds;
mod lists;
mod material;
mod method_names;
mod nodes;
mod parts;
mod property;
mod read;
mod signer;
mod values;

pub use decoding::octets_or_none;
pub use faults::PartFault;
pub use parts::SignatureParts;
pub use read::read_signature;
pub use signature_parts::PropertyKind;
pub use signature_shape::What;
pub use signer::has_digest;
