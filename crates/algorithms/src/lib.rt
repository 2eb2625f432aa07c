//! The digests and the kinds of signatures that the crates above speak of. Nothing is allocated.
#![tactic(auto)]

mod digest_kinds;
mod digests;
mod signature_kinds;

pub use digest_kinds::DigestKind;
pub use digests::{Digest, Hasher};
pub use signature_kinds::{SignatureKind, verify};
