//! What is in memory of a signature for its judgement.

use crate::words::Soundness;
use algorithms::{Digest, DigestKind, SignatureKind};
use archive_octets::StampKind;
use cert_paths::ObjectId;
use existence_times::Case;

/// The digest of the octets of a Reference (XML Signature 1.1, section 4.4.3.6).
#[derive(Clone, Copy)]
pub struct ReferenceDigest {
    /// Its algorithm, which the Reference names.
    pub kind: DigestKind,
    /// Whether it is the one that the Reference tells.
    pub matches: bool,
    /// What it is.
    pub computed: Digest,
}

/// The signing certificate: the first of `KeyInfo` that has the digest of the first `Cert` (EN 319 132-1, clause 5.2.2).
#[derive(Clone, Copy)]
pub struct SigningCert<'a> {
    /// It, in DER.
    pub octets: &'a [u8],
    /// Its object.
    pub object: ObjectId,
}

/// A time-stamp of a signature (EN 319 132-1, clauses 5.3 and 5.5.2).
#[derive(Clone, Copy)]
pub struct StampWord<'a> {
    /// On what it is.
    pub kind: StampKind,
    /// Its token, in DER.
    pub token: &'a [u8],
    /// The token's object.
    pub object: ObjectId,
    /// Whether the token is sound over the octets that the property covers.
    pub soundness: Soundness,
}

/// What the signature of a document shows for its judgement.
#[derive(Drop)]
pub struct SignatureCase<'a> {
    /// Its objects, and its time-stamps with what they cover.
    pub case: Case,
    /// The digests of its References, in their order.
    pub references: Vec<ReferenceDigest>,
    /// The algorithm of the signing certificate's digest.
    pub certificate_kind: DigestKind,
    /// The signing certificate; none where no certificate of `KeyInfo` has the digest.
    pub certificate: Option<SigningCert<'a>>,
    /// The kind of the signature method by the policy; none where the policy doesn't list the method.
    pub kind: Option<SignatureKind>,
    /// Whether the key of the signing certificate is of that kind; not where one of the two lacks.
    pub keyed: bool,
    /// Whether the signature value verifies under that key, as of that kind; not where one of the two lacks.
    pub verifies: bool,
    /// Its time-stamps, in their order: the same as those of the case, number by number.
    pub stamps: Vec<StampWord<'a>>,
}

/// What a signature shows, unless it has more than 256 distinct certificates, revocation lists and tokens, those inside its tokens and those
/// that are handed in too.
#[derive(Drop)]
pub enum Counted<'a> {
    /// This is what it shows.
    Built(SignatureCase<'a>),
    /// It has more.
    TooLarge,
}
