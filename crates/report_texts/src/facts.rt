//! What a report says.

ghost use Rattle.std.specs.Prelude.{◌≡◌, map};
ghost use Rattle.std.specs.List.{list_all};
ghost use Rattle.signature_evidence.specs.Soundness.{is_sound};
ghost use Rattle.signature_cases.specs.Words.{soundness_in};
ghost use Rattle.report_texts.specs.Facts.{is_held, is_fine, is_certified, is_yes, shown, token_shown};

use algorithms::{Digest, DigestKind, SignatureKind};
use signature_cases::Soundness;
use signature_parts::PropertyKind;

/// The level of a signature (EN 319 132-1, clause 6).
#[derive(Clone, Copy)]
pub enum Level {
    /// B-B: no time-stamp.
    B,
    /// B-T: a time-stamp on the value.
    T,
    /// B-LT: and all that shows the certificates to be good.
    Lt,
    /// B-LTA: a time-stamp on the archive.
    Lta,
}

/// Of a Reference: the algorithm of its digest, the digest that was computed, whether it is the one that the Reference names, whether the
/// algorithm is accepted at the time of the octets, and this time in seconds since 1970.
#[derive(Clone, Copy)]
pub struct ReferenceFact {
    pub kind: DigestKind,
    pub computed: Digest,
    pub matches: bool,
    pub accepted: bool,
    pub time: i64,
}

/// Of the signing certificate: the algorithm of the digest by which it is named, this digest, whether the algorithm is accepted at the time
/// of the certificate, and this time in seconds since 1970.
#[derive(Clone, Copy)]
pub struct CertificateFact {
    pub kind: DigestKind,
    pub digest: Digest,
    pub accepted: bool,
    pub time: i64,
}

/// Of the signature value: its kind by the policy, whether it verifies, whether the key is of this kind, whether the kind is accepted at
/// the time of the value, and this time in seconds since 1970.
#[derive(Clone, Copy)]
pub struct ValueFact {
    pub kind: Option<SignatureKind>,
    pub good: bool,
    pub keyed: bool,
    pub accepted: bool,
    pub time: i64,
}

/// Of a time-stamp: its kind, its own time, whether it is sound, whether it is accepted at the time that is proved of it, and this time;
/// times are in seconds since 1970.
#[derive(Clone, Copy)]
pub struct TokenFact {
    pub kind: PropertyKind,
    pub gen_time: i64,
    pub soundness: Soundness,
    pub accepted: bool,
    pub time: i64,
}

/// Of a certificate or revocation list: which of the two it is, and the time that is proved of it, in seconds since 1970.
#[derive(Clone, Copy)]
pub struct ObjectFact {
    pub is_certificate: bool,
    pub time: i64,
}

/// What a report says: the moment for which it is made, in seconds since 1970, the signature's level, its References, its signing
/// certificate where there is one, its value, whether the signing certificate is accepted at the time of the value, its time-stamps,
/// whether these are in order, and its certificates and revocation lists.
#[derive(Drop)]
pub struct Facts {
    pub moment: i64,
    pub level: Level,
    pub references: Vec<ReferenceFact>,
    pub certificate: Option<CertificateFact>,
    pub value: ValueFact,
    pub walk: bool,
    pub tokens: Vec<TokenFact>,
    pub in_order: bool,
    pub objects: Vec<ObjectFact>,
}

// Whether a time-stamp has no fault.
fn is_sound(soundness: Soundness) -> bool
    ensures { result ≡ is_sound (soundness_in soundness) }
{
    match soundness {
        Soundness::Sound => true,
        Soundness::ImprintDiffers
        | Soundness::ContentDigestDiffers
        | Soundness::NoSigner
        | Soundness::CertHashDiffers
        | Soundness::Purpose
        | Soundness::UnknownKind
        | Soundness::Fails => false,
    }
}

// Whether nothing stands against the References.
fn are_held(facts: &[ReferenceFact]) -> bool
    ensures { result ≡ list_all is_held facts.now }
{
    facts.iter().all(|fact| fact.matches && fact.accepted)
}

// Whether nothing stands against the signing certificate.
fn is_certified(fact: &Option<CertificateFact>) -> bool
    ensures { result ≡ is_certified fact.now }
{
    match fact {
        Some(fact) => fact.accepted,
        None => false,
    }
}

fn is_fine(fact: TokenFact) -> bool
    ensures { result ≡ is_fine (token_shown fact) }
{
    is_sound(fact.soundness) && fact.accepted
}

// Whether each time-stamp is fine.
fn each_fine(facts: &[TokenFact]) -> bool
    ensures { result ≡ list_all (λ fact. is_fine (token_shown fact)) facts.now }
{
    facts.iter().all(|fact| is_fine(*fact))
}

// Whether nothing stands against the time-stamps.
fn are_fine(facts: &[TokenFact]) -> bool
    ensures { result ≡ list_all is_fine (map token_shown facts.now) }
{
    each_fine(facts)
}

impl Facts {
    /// Whether the verdict is yes: nothing that is said stands against it.
    pub fn is_yes(&self) -> bool
        ensures { result ≡ is_yes (shown self.now) }
    {
        are_held(&self.references)
            && is_certified(&self.certificate)
            && self.value.good
            && self.value.accepted
            && self.walk
            && are_fine(&self.tokens)
            && self.in_order
    }
}
