//! The time-stamps of a signature, put into a case (EN 319 132-1, clauses 5.3 and 5.5.2).

ghost use Rattle.std.specs.Prelude.{◌≡◌, ◌≤◌, ◌<◌, ◌∷◌, All, List, ℕ, IfOk, OnOk, Ok, [], length, map};
ghost use Rattle.acceptance.specs.Objects.{token_of};
ghost use Rattle.der_values.specs.Fits.{IsObject};
ghost use Rattle.doc_spans.specs.declared.documents.Doc.{Doc};
ghost use Rattle.doc_spans.specs.Seen.{document_in};
ghost use Rattle.existence_times.specs.Kept.{number_of as number_in, with_stamp};
ghost use Rattle.existence_times.specs.Shown.{HasSignerOf, HasToken};
ghost use Rattle.qualifying_props.specs.Answers.{IsAnswer};
ghost use Rattle.reference_chains.specs.HandedIn.{handed_in};
ghost use Rattle.references.specs.RefsOf.{AreRefsOf};
ghost use Rattle.signature_elements.specs.Standing.{spot_of};
ghost use Rattle.signature_objects.specs.Held.{objects};
ghost use Rattle.signature_objects.specs.Objects.{Object, Token, number_of, numbers_below};
ghost use Rattle.tst_tokens.specs.Layouts as layout;
ghost use Rattle.signature_evidence.specs.Evidence.{stamps};
ghost use Rattle.signature_evidence.specs.Soundness.{is_sound};
ghost use Rattle.case_steps.specs.Built.{ShowsObjects, ShowsStamps};
ghost use Rattle.signature_cases.specs.Built.{AreWords};
ghost use Rattle.signature_cases.specs.Stamps.{AreMarks, covered_by};
ghost use Rattle.signature_cases.specs.Words.{soundness_in};

use crate::cases::StampWord;
use crate::judging::{JudgedStamp, judge_at};
use crate::keys::has_room;
use archive_octets::StampKind;
use cert_paths::{ObjectId, Pool};
use doc_spans::Doc;
use existence_times::Case;
use qualifying_props::SignatureParts;
use references::{Externals, Refs};
use std::alloc::Global;
use xa_io::OutOfMemory;

// So many objects of a pool, from the first one on.
fn objects_below(alloc: Global, pool: &Pool, count: u32) -> Result<Vec<ObjectId>, OutOfMemory>
    requires { count ≤ length pool.now }
    ensures are { IfOk result (λ ids. map number_in ids.items ≡ numbers_below count) }
    ensures within { IfOk result (λ ids. All (λ y. y < length pool.now) (map number_in ids.items)) }
{
    let mut ids = Vec::new(alloc);
    for number in 0..count {
        let Ok(()) = ids.push(pool.object(number)) else {
            return Err(OutOfMemory);
        };
    }
    Ok(ids)
}

// The value alone.
fn only_value(alloc: Global, case: &Case) -> Result<Vec<ObjectId>, OutOfMemory>
    ensures are { IfOk result (λ ids. map number_in ids.items ≡ case.now.references ∷ []) }
    ensures within { IfOk result (λ ids. All (λ y. y < length case.now.pool) (map number_in ids.items)) }
{
    let mut ids = Vec::new(alloc);
    match ids.push(case.value()) {
        Ok(()) => Ok(ids),
        Err(_) => Err(OutOfMemory),
    }
}

// What a time-stamp of a kind covers, before which there are so many objects.
fn covers(
    alloc: Global,
    case: &Case,
    kind: StampKind,
    before: u32,
) -> Result<Vec<ObjectId>, OutOfMemory>
    requires { before ≤ length case.now.pool }
    ensures are { IfOk result (λ ids. map number_in ids.items ≡ covered_by kind case.now.references before) }
    ensures within { IfOk result (λ ids. All (λ y. y < length case.now.pool) (map number_in ids.items)) }
{
    match kind {
        StampKind::Signature => only_value(alloc, case),
        StampKind::Archive => objects_below(alloc, case.pool(), before),
    }
}

// Puts a judged time-stamp into a case that has its token, and gives the token's object.
fn put_stamp(
    alloc: Global,
    case: &mut Case,
    stamp: JudgedStamp<'_>,
    before: u32,
) -> Result<ObjectId, OutOfMemory>
    requires before { before ≤ length case.old.pool }
    requires whole { IsObject layout.token stamp.token.now }
    requires there { (n : ℕ) × HasToken case.old n stamp.token.now }
    requires signer { HasSignerOf case.old.pool (token_of stamp.token.now) }
    ensures number { (objects : List Object) → ShowsObjects objects case.old → IfOk result (λ id. id.number ≡ number_of objects (Token stamp.entry.token.now)) }
    ensures stamp { (objects : List Object) → ShowsObjects objects case.old
        → OnOk result (case.new ≡ with_stamp case.old (record {
          object = number_of objects (Token stamp.entry.token.now);
          token = stamp.entry.token.now;
          sound = is_sound (soundness_in stamp.entry.soundness);
          covers = covered_by stamp.entry.kind case.old.references before;
        })) }
{
    if !has_room(case) {
        return Err(OutOfMemory);
    }
    let object = case.add_token(stamp.token)?;
    let covers = covers(alloc, case, stamp.kind, before)?;
    let sound = stamp.soundness.is_sound();
    case.add_stamp(object, sound, &covers)?;
    Ok(object)
}

// Puts all time-stamps of a signature into a case with its objects, in their order, and gives their words.
pub(crate) fn put_stamps<'a>(
    alloc: Global,
    doc: Doc<'_>,
    parts: &'a SignatureParts,
    refs: &Refs,
    externals: &Externals,
    case: &mut Case,
    marks: &[u32],
) -> Result<Vec<StampWord<'a>>, OutOfMemory>
    requires parts { IsAnswer doc (Ok parts.now) }
    requires refs { AreRefsOf doc parts.now refs.now }
    requires shows { (more : List Object) × ShowsObjects (objects (document_in doc) (spot_of doc parts.now.signature) more) case.old }
    requires none { case.old.stamps ≡ [] }
    requires many { length marks.now ≡ length parts.now.properties }
    requires marks { AreMarks (document_in doc) (spot_of doc parts.now.signature) marks.now }
    ensures { let document = document_in doc.entry in let signature = spot_of doc.entry parts.now.signature in let shown = stamps (handed_in externals.now) document signature in
        (more : List Object) → ShowsObjects (objects document signature more) case.old
        → OnOk result (ShowsObjects (objects document signature more) case.new × ShowsStamps (objects document signature more) shown case.new.stamps)
        × IfOk result (λ words. AreWords (objects document signature more) shown words.items) }
{
    let mut words = Vec::new(alloc);
    for property in 0..parts.properties() {
        let judged = judge_at(alloc, doc, parts, refs, externals, property)?;
        let Some(stamp) = judged else {
            continue;
        };
        let object = put_stamp(alloc, case, stamp, marks[property])?;
        let word = StampWord {
            kind: stamp.kind,
            token: stamp.token,
            object,
            soundness: stamp.soundness,
        };
        let Ok(()) = words.push(word) else {
            return Err(OutOfMemory);
        };
    }
    Ok(words)
}
