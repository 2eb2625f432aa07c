//! XMSS signatures with SHA-256 and n = 32 (RFC 8391): whether a signature of a message holds under
//! a key, and if not, why.
//!
//! A key is 68 octets, `OID || root || SEED` (section 4.1.7), and a signature is
//! `idx || r || sig_ots || auth` (section 4.1.8). The sets 1, 2 and 3 have trees of height 10, 16
//! and 20 (section 5.3). Nothing is allocated.
//!
//! The modules `address`, `hashes`, `wots` and `tree` hold the steps that a signer takes as a
//! verifier does.
#![tactic(auto)]

pub mod address;
pub mod hashes;
pub mod tree;
pub mod wots;
mod xmss;

pub use xmss::verify;

/// Why a signature does not hold. The first that is so, in this order, is the reason.
#[derive(Clone, Copy, Debug, PartialEq, Eq)]
pub enum Why {
    /// The key does not have 68 octets.
    KeyShape,
    /// The key's set is none of the three.
    UnknownSet,
    /// The octets are no signature of the key's set: another length, or a leaf number past the tree.
    SignatureShape,
    /// The signature leads to the root `got`, where the key has `want`.
    RootDiffers { got: [u8; 32], want: [u8; 32] },
}

/// The answer on a key, a message and a signature.
#[derive(Clone, Copy, Debug, PartialEq, Eq)]
pub enum Verdict {
    /// The signature holds.
    Good,
    /// It does not hold.
    Bad(Why),
}
