//! Facts of made-up signatures.

ghost use Rattle.std.specs.Prelude.{All, IfOk, map};
ghost use Rattle.time_texts.specs.Clock.{IsOfYears};
ghost use Rattle.report_texts.specs.Facts.{AreTimed, shown, token_shown};

use algorithms::{Digest, DigestKind, Hasher, SignatureKind};
use report_texts::{
    CertificateFact, Facts, Level, ObjectFact, ReferenceFact, Soundness, TokenFact, ValueFact,
};
use signature_parts::PropertyKind;
use std::alloc::{AllocError, Global};
use xa_io::Octets;

// 2030-01-01T00:00:00Z, and the days after it.
pub(crate) const FIRST: i64 = 1_893_456_000;

const SECOND: i64 = 1_893_542_400;

const THIRD: i64 = 1_893_628_800;

// The digest of the message abc.
fn of_abc(kind: DigestKind) -> Digest {
    let mut hasher = Hasher::new(kind);
    hasher.put(b"abc");
    hasher.finish()
}

fn reference(kind: DigestKind, matches: bool, accepted: bool) -> ReferenceFact
    ensures { IsOfYears result.time }
{
    ReferenceFact {
        kind,
        computed: of_abc(kind),
        matches,
        accepted,
        time: SECOND,
    }
}

fn certificate(kind: DigestKind, accepted: bool) -> CertificateFact
    ensures { IsOfYears result.time }
{
    CertificateFact {
        kind,
        digest: of_abc(kind),
        accepted,
        time: SECOND,
    }
}

fn token(kind: PropertyKind, soundness: Soundness, accepted: bool) -> TokenFact
    ensures { IsOfYears result.gen_time × IsOfYears result.time }
{
    TokenFact {
        kind,
        gen_time: FIRST,
        soundness,
        accepted,
        time: SECOND,
    }
}

// All that a yes says: two References, both kinds of time-stamps, a certificate and a revocation list.
pub(crate) fn good(alloc: Global) -> Result<Facts, AllocError>
    ensures { IfOk result (λ facts. AreTimed (shown facts)) }
{
    let references = vec![in alloc;
        reference(DigestKind::Sha256, true, true),
        reference(DigestKind::Sha384, true, true),
    ]?;
    let tokens = vec![in alloc;
        token(PropertyKind::SignatureStamp, Soundness::Sound, true),
        token(PropertyKind::ArchiveStamp, Soundness::Sound, true),
    ]?;
    let objects = vec![in alloc;
        ObjectFact {
            is_certificate: true,
            time: SECOND
        },
        ObjectFact {
            is_certificate: false,
            time: THIRD
        },
    ]?;
    Ok(Facts {
        moment: THIRD,
        level: Level::Lta,
        references,
        certificate: Some(certificate(DigestKind::Sha512, true)),
        value: ValueFact {
            kind: Some(SignatureKind::Hss),
            good: true,
            keyed: true,
            accepted: true,
            time: FIRST,
        },
        walk: true,
        tokens,
        in_order: true,
        objects,
    })
}

// Two References, of which one has another digest, and the algorithm of the other isn't accepted.
fn bad_references(alloc: Global) -> Result<Vec<ReferenceFact>, AllocError>
    ensures { IfOk result (λ facts. All (λ fact. IsOfYears fact.time) facts.items) }
{
    let facts = vec![in alloc;
        reference(DigestKind::Sha256, false, true),
        reference(DigestKind::Sha256, true, false),
    ]?;
    Ok(facts)
}

// A time-stamp with each fault.
fn bad_tokens(alloc: Global) -> Result<Vec<TokenFact>, AllocError>
    ensures { IfOk result (λ facts. All (λ fact. IsOfYears fact.gen_time × IsOfYears fact.time) (map token_shown facts.items)) }
{
    let facts = vec![in alloc;
        token(
            PropertyKind::SignatureStamp,
            Soundness::ImprintDiffers,
            false
        ),
        token(
            PropertyKind::ArchiveStamp,
            Soundness::ContentDigestDiffers,
            true
        ),
        token(PropertyKind::ArchiveStamp, Soundness::NoSigner, false),
        token(
            PropertyKind::ArchiveStamp,
            Soundness::CertHashDiffers,
            false
        ),
        token(PropertyKind::ArchiveStamp, Soundness::Purpose, false),
        token(PropertyKind::ArchiveStamp, Soundness::UnknownKind, false),
        token(PropertyKind::ArchiveStamp, Soundness::Fails, false),
    ]?;
    Ok(facts)
}

// With a fault in each line.
pub(crate) fn broken(alloc: Global) -> Result<Facts, AllocError>
    ensures { IfOk result (λ facts. AreTimed (shown facts)) }
{
    let references = bad_references(alloc)?;
    let tokens = bad_tokens(alloc)?;
    Ok(Facts {
        moment: FIRST,
        level: Level::T,
        references,
        certificate: None,
        value: ValueFact {
            kind: None,
            good: false,
            keyed: false,
            accepted: false,
            time: FIRST,
        },
        walk: false,
        tokens,
        in_order: false,
        objects: Vec::new(alloc),
    })
}

// Without References, time-stamps, certificates and lists.
pub(crate) fn old(
    alloc: Global,
    level: Level,
    kind: SignatureKind,
    accepted: bool,
) -> Result<Facts, AllocError>
    ensures { IfOk result (λ facts. AreTimed (shown facts)) }
{
    Ok(Facts {
        moment: FIRST,
        level,
        references: Vec::new(alloc),
        certificate: Some(certificate(DigestKind::Sha256, accepted)),
        value: ValueFact {
            kind: Some(kind),
            good: true,
            keyed: true,
            accepted,
            time: FIRST,
        },
        walk: true,
        tokens: Vec::new(alloc),
        in_order: true,
        objects: Vec::new(alloc),
    })
}
