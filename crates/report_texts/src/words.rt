//! The words of a report.

ghost use Rattle.std.specs.Prelude.{◌≡◌};
ghost use Rattle.signature_evidence.specs.Report as report;
ghost use Rattle.signature_parts.specs.Kinds.{kind_in};
ghost use Rattle.signature_cases.specs.Words.{soundness_in};
ghost use Rattle.report_texts.specs.Texts.{level_word, good_word, value_word, order_word, object_word};

use crate::facts::{Level, ValueFact};
use algorithms::SignatureKind;
use signature_cases::Soundness;
use signature_parts::PropertyKind;

pub(crate) fn verdict_word(yes: bool) -> &'static [u8]
    ensures { result.now ≡ report.verdict_word yes }
{
    if yes { b"yes" } else { b"no" }
}

pub(crate) fn level_word(level: Level) -> &'static [u8]
    ensures { result.now ≡ level_word level }
{
    match level {
        Level::B => b"B-B",
        Level::T => b"B-T",
        Level::Lt => b"B-LT",
        Level::Lta => b"B-LTA",
    }
}

pub(crate) fn match_word(matches: bool) -> &'static [u8]
    ensures { result.now ≡ report.match_word matches }
{
    if matches { b"match" } else { b"differ" }
}

pub(crate) fn accepted_word(accepted: bool) -> &'static [u8]
    ensures { result.now ≡ report.accepted_word accepted }
{
    if accepted { b"accepted" } else { b"withdrawn" }
}

pub(crate) fn walk_word(accepted: bool) -> &'static [u8]
    ensures { result.now ≡ report.walk_word accepted }
{
    if accepted { b"accepted" } else { b"refused" }
}

pub(crate) fn kind_word(kind: Option<SignatureKind>) -> &'static [u8]
    ensures { result.now ≡ report.kind_word kind }
{
    match kind {
        Some(kind) => kind.word().as_bytes(),
        None => b"unknown",
    }
}

pub(crate) fn good_word(good: bool) -> &'static [u8]
    ensures { result.now ≡ good_word good }
{
    if good { b"good" } else { b"bad" }
}

pub(crate) fn value_word(fact: &ValueFact) -> &'static [u8]
    ensures { result.now ≡ value_word fact.now }
{
    if fact.keyed {
        accepted_word(fact.accepted)
    } else {
        b"refused"
    }
}

pub(crate) fn stamp_word(kind: PropertyKind) -> &'static [u8]
    ensures { result.now ≡ report.stamp_word (kind_in kind) }
{
    match kind {
        PropertyKind::SignatureStamp => b"signature",
        PropertyKind::ArchiveStamp => b"archive",
        PropertyKind::Material | PropertyKind::Passed => b"",
    }
}

pub(crate) fn soundness_word(soundness: Soundness) -> &'static [u8]
    ensures { result.now ≡ report.soundness_word (soundness_in soundness) }
{
    match soundness {
        Soundness::Sound => b"sound",
        Soundness::ImprintDiffers => b"fault-2",
        Soundness::ContentDigestDiffers => b"fault-3",
        Soundness::NoSigner => b"fault-4",
        Soundness::CertHashDiffers => b"fault-5",
        Soundness::Purpose => b"fault-6",
        Soundness::UnknownKind => b"fault-7",
        Soundness::Fails => b"fault-8",
    }
}

pub(crate) fn order_word(kept: bool) -> &'static [u8]
    ensures { result.now ≡ order_word kept }
{
    if kept { b"kept" } else { b"broken" }
}

pub(crate) fn object_word(is_certificate: bool) -> &'static [u8]
    ensures { result.now ≡ object_word is_certificate }
{
    if is_certificate {
        b"certificate"
    } else {
        b"crl"
    }
}
