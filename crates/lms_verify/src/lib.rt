//! HSS and LMS signatures with SHA-256 (RFC 8554): whether a signature of a message holds under a
//! key, and if not, why.
//!
//! A key is 60 octets, `L || u32 type || u32 otstype || I || T[1]` (section 6.1), and a signature
//! has `L` levels (section 6.2). The LM-OTS types 1 to 4 and the LMS types 5 to 9 are known, each
//! pair of them. Nothing is allocated.
//!
//! The modules `lm_ots` and `lms` hold the steps that a signer takes as a verifier does.
#![tactic(auto)]

mod hss;
mod keys;
pub mod lm_ots;
pub mod lms;
mod sets;

pub use hss::verify;
pub use sets::rows_are_derived;

/// Why a signature does not hold. The first that is so, in this order, is the reason.
#[derive(Clone, Copy, Debug, PartialEq, Eq)]
pub enum Why {
    /// The key does not have 60 octets, or its L is not from 1 to 8.
    KeyShape,
    /// One of the key's two types is none of the tables'.
    UnknownSet,
    /// The octets are no signature under the key: another L, another length, other types than the
    /// key's, an inner key of unknown types, or a leaf number past the tree.
    SignatureShape,
    /// The first level whose signature leads to the root `got`, where its key has `want`.
    RootDiffers { got: [u8; 32], want: [u8; 32] },
}

/// The answer on a key, a message and a signature.
#[derive(Clone, Copy, Debug, PartialEq, Eq)]
pub enum Verdict {
    /// The signature holds.
    Good,
    /// It does not hold.
    Bad(Why),
}
