//! XMSS^MT signatures with SHA-256 and n = 32 (RFC 8391, section 4.2): whether a signature of a
//! message holds under a key, and if not, why.
//!
//! A key is 68 octets, `OID || root || SEED`, and a signature is `idx || r` and, for each layer of
//! trees, `sig_ots || auth` (section 4.2.3). The sets 1 to 8 have heights of 20, 40 and 60 in 2 to
//! 12 layers (section 5.4). Nothing is allocated.
//!
//! The code is its own and takes nothing of the verifier of XMSS; only the definitions are the
//! same. The modules `address`, `hashes`, `wots` and `tree` hold the steps that a signer takes as a
//! verifier does.
#![tactic(auto)]

pub mod address;
pub mod hashes;
pub mod tree;
pub mod wots;
mod xmssmt;

pub use xmssmt::verify;

/// Why a signature does not hold. The first that is so, in this order, is the reason.
#[derive(Clone, Copy, Debug, PartialEq, Eq)]
pub enum Why {
    /// The key does not have 68 octets.
    KeyShape,
    /// The key's set is none of the eight.
    UnknownSet,
    /// The octets are no signature of the key's set: another length, or a number past the leaves.
    SignatureShape,
    /// The highest layer of the signature leads to the root `got`, where the key has `want`.
    RootDiffers { got: [u8; 32], want: [u8; 32] },
}

/// The answer on a key, a message and a signature.
#[derive(Clone, Copy, Debug, PartialEq, Eq)]
pub enum Verdict {
    /// The signature holds.
    Good,
    /// It does not hold.
    Bad(Why),
}
