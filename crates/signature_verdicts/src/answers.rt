//! Answers in memory.

use cert_paths::Times;
use signature_cases::Soundness;

/// The answers on the token of a time-stamp (RFC 3161, section 2.4.2).
#[derive(Clone, Copy)]
pub struct TokenAnswer {
    /// Whether it is sound over the octets that its property covers, or what first makes it unsound.
    pub soundness: Soundness,
    /// Whether it is accepted at the earliest time that is proved of it.
    pub accepted: bool,
}

/// The answers on what a signature shows, at a moment and by a policy.
#[derive(Drop)]
pub struct Answers {
    /// The earliest proved time of each object, in seconds since 1970.
    pub times: Times,
    /// For each Reference, whether the algorithm of its digest is accepted at the time of its octets.
    pub references: Vec<bool>,
    /// Whether that of the signing certificate's digest is at the time of the certificate; not where there is none.
    pub certificate: bool,
    /// Whether the value verifies under the key of the signing certificate.
    pub good: bool,
    /// Whether this key is of the signature method's kind.
    pub keyed: bool,
    /// Whether the kind is accepted at the time of the value.
    pub kind: bool,
    /// Whether the signing certificate is accepted at the time of the value (RFC 5280, section 6).
    pub walk: bool,
    /// For each time-stamp, in their order.
    pub tokens: Vec<TokenAnswer>,
    /// Whether no token is of a time after the moment, and none covers a token of a later time.
    pub in_order: bool,
    /// Whether the walks of the signing certificate and of all tokens' signers are complete.
    pub complete: bool,
}
