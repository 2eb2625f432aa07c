//! Time-stamps, judged one after another over the octets that they cover (RFC 3161, section 2.4.2).

ghost use Rattle.std.specs.Prelude.{◌≡◌, ◌<◌, IfOk, MatchOption, Some, length, option_map, slice_get, take, false};
ghost use Rattle.algorithms.specs.Digests.{digest_of};
ghost use Rattle.archive_octets.specs.Kinds as stamps;
ghost use Rattle.der_values.specs.Fits.{IsObject};
ghost use Rattle.doc_spans.specs.Seen.{document_in};
ghost use Rattle.qualifying_props.specs.PartsOf.{AreParts};
ghost use Rattle.qualifying_props.specs.Wholes.{AreWhole};
ghost use Rattle.reference_chains.specs.HandedIn.{handed_in};
ghost use Rattle.references.specs.RefsOf.{AreRefsOf};
ghost use Rattle.signature_elements.specs.Standing.{spot_of};
ghost use Rattle.signature_model.specs.Parts.{is_stamp_kind, properties};
ghost use Rattle.signature_model.specs.Spots.{Spot};
ghost use Rattle.signature_parts.specs.Kinds.{kind_in};
ghost use Rattle.tst_tokens.specs.Digests.{imprint_kind};
ghost use Rattle.tst_tokens.specs.Layouts as layout;
ghost use Rattle.signature_evidence.specs.Soundness.{HasSoundness, soundness_of};
ghost use Rattle.signature_cases.specs.Stamps.{IsJudgedAs, stamped_at};
ghost use Rattle.signature_cases.specs.Words.{soundness_in};

use crate::words::Soundness;
use archive_octets::{StampKind, octets_at};
use doc_spans::Doc;
use qualifying_props::{PropertyKind, SignatureParts};
use references::{Externals, Refs};
use stamp_checks::check_over;
use std::alloc::Global;
use tst_tokens::TokenFault;
use xa_io::{Octets, OutOfMemory};

// A time-stamp, judged.
#[derive(Clone, Copy)]
pub(crate) struct JudgedStamp<'a> {
    pub(crate) kind: StampKind,
    pub(crate) token: &'a [u8],
    pub(crate) soundness: Soundness,
}

// The kind of a time-stamp by that of its property.
fn stamp_kind(kind: PropertyKind) -> Option<StampKind>
    ensures { MatchOption result (is_stamp_kind (kind_in kind) ≡ false) (λ stamp. stamps.kind_in stamp ≡ kind_in kind) }
{
    match kind {
        PropertyKind::SignatureStamp => Some(StampKind::Signature),
        PropertyKind::ArchiveStamp => Some(StampKind::Archive),
        PropertyKind::Material => None,
        PropertyKind::Passed => None,
    }
}

// What a fault says of the soundness of a token.
fn word_of(fault: &TokenFault) -> Option<Soundness>
    ensures { option_map soundness_in result ≡ soundness_of fault.now }
{
    match fault {
        TokenFault::Shape { .. } => None,
        TokenFault::ImprintDiffers { .. } => Some(Soundness::ImprintDiffers),
        TokenFault::ContentDigestDiffers { .. } => Some(Soundness::ContentDigestDiffers),
        TokenFault::NoSigner => Some(Soundness::NoSigner),
        TokenFault::CertHashDiffers { .. } => Some(Soundness::CertHashDiffers),
        TokenFault::Purpose => Some(Soundness::Purpose),
        TokenFault::UnknownKind => Some(Soundness::UnknownKind),
        TokenFault::Fails => Some(Soundness::Fails),
        TokenFault::OutOfMemory => None,
    }
}

// The soundness of a whole token over octets.
fn soundness(alloc: Global, token: &[u8], covered: &[u8]) -> Result<Soundness, OutOfMemory>
    requires whole { IsObject layout.token token.now }
    ensures { IfOk result (λ word. HasSoundness (digest_of (imprint_kind token.now) covered.now) token.now (soundness_in word)) }
{
    let Err(fault) = check_over(alloc, token, covered) else {
        return Ok(Soundness::Sound);
    };
    match word_of(&fault) {
        Some(word) => Ok(word),
        None => Err(OutOfMemory),
    }
}

// The property with a number, judged where it is a time-stamp.
pub(crate) fn judge_at<'a>(
    alloc: Global,
    doc: Doc<'_>,
    parts: &'a SignatureParts,
    refs: &Refs,
    externals: &Externals,
    property: usize,
) -> Result<Option<JudgedStamp<'a>>, OutOfMemory>
    requires parts { AreParts doc parts.now }
    requires whole { AreWhole parts.now }
    requires refs { AreRefsOf doc parts.now refs.now }
    requires property { property < length parts.now.properties }
    ensures { let document = document_in doc.entry in let signature = spot_of doc.entry parts.now.signature in let all = properties document signature in
        (spot : Spot) → slice_get all property ≡ Some spot → IfOk result (IsJudgedAs (stamped_at (handed_in externals.now) document signature (take property all) spot)) }
{
    let Some(kind) = stamp_kind(parts.property_kind(property)) else {
        return Ok(None);
    };
    let Some(token) = parts.token(property) else {
        unreachable!()
    };
    let covered = octets_at(alloc, doc, parts, refs, externals, property)?;
    let soundness = soundness(alloc, token, covered.as_slice())?;
    Ok(Some(JudgedStamp {
        kind,
        token,
        soundness,
    }))
}
