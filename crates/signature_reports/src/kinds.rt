//! The level of a signature, by the kinds of its time-stamps.

ghost use Rattle.std.specs.Prelude.{◌≡◌, List};
ghost use Rattle.std.specs.List.{list_any};
ghost use Rattle.archive_octets.specs.Kinds as archive;
ghost use Rattle.signature_parts.specs.Kinds as model;
ghost use Rattle.signature_cases.specs.Built.{AreWords};
ghost use Rattle.signature_evidence.specs.Answers as said;
ghost use Rattle.signature_evidence.specs.Evidence.{Evidence};
ghost use Rattle.signature_evidence.specs.Report as evidence;
ghost use Rattle.report_texts.specs.Shown.{level_of};
ghost use Rattle.signature_reports.specs.Said.{stamped_in};

use archive_octets::StampKind;
use report_texts::Level;
use signature_cases::StampWord;
use signature_parts::PropertyKind;

// The kind of the property.
pub(crate) fn kind_of(kind: StampKind) -> PropertyKind
    ensures { model.kind_in result ≡ archive.kind_in kind }
{
    match kind {
        StampKind::Signature => PropertyKind::SignatureStamp,
        StampKind::Archive => PropertyKind::ArchiveStamp,
    }
}

fn is_archive(word: &StampWord<'_>) -> bool
    ensures { result ≡ evidence.is_archive (stamped_in word.now) }
{
    matches!(word.kind, StampKind::Archive)
}

fn is_signature_stamp(word: &StampWord<'_>) -> bool
    ensures { result ≡ evidence.is_signature_stamp (stamped_in word.now) }
{
    matches!(word.kind, StampKind::Signature)
}

fn is_archived(words: &[StampWord<'_>]) -> bool
    ensures { result ≡ list_any (λ word. evidence.is_archive (stamped_in word)) words.now }
{
    words.iter().any(|word| is_archive(word))
}

fn is_stamped(words: &[StampWord<'_>]) -> bool
    ensures { result ≡ list_any (λ word. evidence.is_signature_stamp (stamped_in word)) words.now }
{
    words.iter().any(|word| is_signature_stamp(word))
}

// The level, by the time-stamps and whether all walks are complete (EN 319 132-1, clause 6).
pub(crate) fn level(words: &[StampWord<'_>], complete: bool) -> Level
    ensures { (evidence : Evidence) (answers : said.Answers) → AreWords evidence.objects evidence.stamps words.now → answers.complete ≡ complete
        → result ≡ level_of evidence answers }
{
    if is_archived(words) {
        Level::Lta
    } else if !is_stamped(words) {
        Level::B
    } else if complete {
        Level::Lt
    } else {
        Level::T
    }
}
