//! What stands against an item before it is put in.

ghost use Rattle.std.specs.Prelude.{◌≡◌, ◌≤◌, Ok, Some, length, true};
ghost use Rattle.doc_spans.specs.declared.documents.Doc.{Doc};
ghost use Rattle.doc_spans.specs.Seen.{bytes_in, document_in};
ghost use Rattle.policy_rules.specs.View.{rules};
ghost use Rattle.qualifying_props.specs.Answers.{IsAnswer};
ghost use Rattle.qualifying_props.specs.PartsOf.{AreParts};
ghost use Rattle.reference_chains.specs.HandedIn.{handed_in};
ghost use Rattle.signature_checks.specs.Codes.{first_code};
ghost use Rattle.signature_checks.specs.Opening.{AreShort, IsOpened};
ghost use Rattle.signature_checks.specs.Validity.{validity_tests};
ghost use Rattle.signature_elements.specs.Standing.{spot_of};
ghost use Rattle.augmenter.specs.Findings.{IsFoundIn, IsTested, exactly};
ghost use Rattle.augmenter.specs.Items.{complete_test, material_test, octets_test, shape_test, signature_tests, signed_tests, stamp_code, stamp_test, value_tests};
ghost use Rattle.augmenter.specs.Judging.{IsJudged, IsObjectionBy, IsValid};

use crate::items::{Item, ItemKind};
use archive_octets::StampKind;
use completeness::first_incomplete;
use doc_spans::Doc;
use item_contents::{MaterialFault, split_material};
use policy_rules::Policy;
use qualifying_props::SignatureParts;
use reference_chains::Externals;
use signature_checks::{Code, Objection, Opened, is_signed, judge_validity, open};
use stamp_checks::{NextStamp, OrderFault, StampFault, has_stamp, judge_next};
use std::alloc::Global;
use tst_tokens::TokenFault;

// A code that was found stands against an item.
fn unless_found(found: Option<Code>) -> Result<(), Objection>
    ensures { IsTested (exactly found) result }
{
    match found {
        Some(code) => Err(Objection::Found(code)),
        None => Ok(()),
    }
}

// What stands against all that the signature says, where this is its value.
fn judge_said(
    alloc: Global,
    doc: Doc<'_>,
    opened: &Opened,
    value: &[u8],
    policy: &Policy,
    externals: &Externals,
) -> Result<(), Objection>
    requires { IsOpened (handed_in externals.now) doc opened.now }
    ensures { IsTested (exactly (first_code (validity_tests (rules policy.now) (handed_in externals.now) (document_in doc.entry) (spot_of doc.entry opened.now.parts.signature) value.now))) result }
{
    match judge_validity(alloc, doc, opened, policy, externals, value) {
        Ok(found) => unless_found(found),
        Err(_) => Err(Objection::OutOfMemory),
    }
}

// The tests on a signature that is to get its value.
fn judge_value(
    alloc: Global,
    doc: Doc<'_>,
    opened: &Opened,
    value: &[u8],
    policy: &Policy,
    externals: &Externals,
) -> Result<(), Objection>
    requires { IsOpened (handed_in externals.now) doc opened.now }
    ensures { IsTested (exactly (first_code (value_tests (rules policy.now) (handed_in externals.now) (document_in doc.entry) (spot_of doc.entry opened.now.parts.signature) value.now))) result }
{
    if is_signed(doc, &opened.parts) {
        return Err(Objection::Found(Code::AlreadySigned));
    }
    judge_said(alloc, doc, opened, value, policy, externals)
}

// The tests on a signature that has a value. What it says isn't judged again where it is known to be right.
fn judge_signed(
    alloc: Global,
    doc: Doc<'_>,
    opened: &Opened,
    policy: &Policy,
    externals: &Externals,
    is_valid: bool,
) -> Result<(), Objection>
    requires opened { IsOpened (handed_in externals.now) doc opened.now }
    requires valid { is_valid ≡ true → IsValid (rules policy.now) (handed_in externals.now) (document_in doc) }
    ensures { IsTested (exactly (first_code (signed_tests (rules policy.now) (handed_in externals.now) (document_in doc.entry) (spot_of doc.entry opened.now.parts.signature)))) result }
{
    if !is_signed(doc, &opened.parts) {
        return Err(Objection::Found(Code::NotSigned));
    }
    if is_valid {
        return Ok(());
    }
    let value = opened.parts.value();
    judge_said(alloc, doc, opened, value, policy, externals)
}

// The tests on the signature that is to get an item.
fn judge_signature(
    alloc: Global,
    doc: Doc<'_>,
    opened: &Opened,
    item: &Item,
    policy: &Policy,
    externals: &Externals,
    is_valid: bool,
) -> Result<(), Objection>
    requires opened { IsOpened (handed_in externals.now) doc opened.now }
    requires valid { is_valid ≡ true → IsValid (rules policy.now) (handed_in externals.now) (document_in doc) }
    ensures { IsTested (exactly (first_code (signature_tests item.now.kind item.now.bytes (rules policy.now) (handed_in externals.now) (document_in doc.entry) (spot_of doc.entry opened.now.parts.signature)))) result }
{
    match item.kind {
        ItemKind::Value => {
            judge_value(alloc, doc, opened, item.bytes.as_slice(), policy, externals)
        }
        ItemKind::Stamp => judge_signed(alloc, doc, opened, policy, externals, is_valid),
        ItemKind::Material => judge_signed(alloc, doc, opened, policy, externals, is_valid),
        ItemKind::Archive => judge_signed(alloc, doc, opened, policy, externals, is_valid),
    }
}

// The code for what stands against a sound token.
fn code_by_order(fault: OrderFault) -> Code
    ensures { result ≡ stamp_code (StampFault.Order fault) }
{
    match fault {
        OrderFault::FromFuture { gen_time, moment } => Code::FromFuture { gen_time, moment },
        OrderFault::TimeOrder { gen_time, earlier } => Code::TimeOrder { gen_time, earlier },
        OrderFault::AfterArchive => Code::AfterArchive,
        OrderFault::NotStamped => Code::NotStamped,
    }
}

// The objection to a time-stamp by what stands against it.
fn objection_by(fault: StampFault) -> Objection
    ensures { IsObjectionBy fault result }
{
    match fault {
        StampFault::Token(TokenFault::OutOfMemory) => Objection::OutOfMemory,
        StampFault::Token(fault) => Objection::Found(Code::Token(fault)),
        StampFault::Order(fault) => Objection::Found(code_by_order(fault)),
    }
}

// The tests on the octets of a time-stamp, at a moment.
fn judge_stamp(
    alloc: Global,
    doc: Doc<'_>,
    opened: &Opened,
    kind: StampKind,
    token: &[u8],
    moment: i64,
    externals: &Externals,
) -> Result<(), Objection>
    requires { IsOpened (handed_in externals.now) doc opened.now }
    ensures { IsTested (stamp_test kind (handed_in externals.now) moment (document_in doc.entry) (spot_of doc.entry opened.now.parts.signature) token.now) result }
{
    let stamp = NextStamp {
        kind,
        token,
        moment,
    };
    match judge_next(alloc, doc, &opened.parts, &opened.refs, externals, stamp) {
        Ok(()) => Ok(()),
        Err(fault) => Err(objection_by(fault)),
    }
}

// The objection to a bad element of validation data at a place. A place that 32 bits don't hold isn't told.
fn objection_at(at: usize) -> Objection
    ensures { IsFoundIn (λ found. found ≡ Some (Code.MaterialShape at)) result }
{
    match u32::try_from(at) {
        Ok(at) => Objection::Found(Code::MaterialShape { at }),
        Err(_) => Objection::OutOfMemory,
    }
}

// The first bad element of validation data.
fn judge_shape(alloc: Global, octets: &[u8]) -> Result<(), Objection>
    ensures { IsTested (shape_test octets.now) result }
{
    match split_material(alloc, octets) {
        Ok(_) => {}
        Err(MaterialFault::NotWhole { at }) => return Err(objection_at(at)),
        Err(MaterialFault::OutOfMemory) => return Err(Objection::OutOfMemory),
    }
    Ok(())
}

// The tests on the octets of validation data.
fn judge_material(alloc: Global, parts: &SignatureParts, octets: &[u8]) -> Result<(), Objection>
    ensures { (doc : Doc) → AreParts doc parts.now → IsTested (material_test (document_in doc) (spot_of doc parts.now.signature) octets.now) result }
{
    if !has_stamp(parts, StampKind::Signature) {
        return Err(Objection::Found(Code::NotStamped));
    }
    match judge_shape(alloc, octets) {
        Ok(()) => {}
        Err(objection) => return Err(objection),
    }
    if octets.is_empty() {
        return Err(Objection::Found(Code::MaterialEmpty));
    }
    Ok(())
}

// The first signer of a signature and its time-stamps that has no complete walk.
fn judge_complete(alloc: Global, parts: &SignatureParts, policy: &Policy) -> Result<(), Objection>
    requires { (doc : Doc) × IsAnswer doc (Ok parts.now) }
    ensures { (doc : Doc) → IsAnswer doc (Ok parts.now) → IsTested (complete_test (rules policy.now) (document_in doc) (spot_of doc parts.now.signature)) result }
{
    match first_incomplete(alloc, parts, policy) {
        Ok(Some(object)) => Err(Objection::Found(Code::NotComplete { object })),
        Ok(None) => Ok(()),
        Err(_) => Err(Objection::OutOfMemory),
    }
}

// The tests on the octets of an archive time-stamp, at a moment.
fn judge_archive(
    alloc: Global,
    doc: Doc<'_>,
    opened: &Opened,
    token: &[u8],
    policy: &Policy,
    moment: i64,
    externals: &Externals,
) -> Result<(), Objection>
    requires { IsOpened (handed_in externals.now) doc opened.now }
    ensures { IsTested (octets_test ItemKind.Archive token.now (rules policy.now) (handed_in externals.now) moment (document_in doc.entry) (spot_of doc.entry opened.now.parts.signature)) result }
{
    match judge_stamp(
        alloc,
        doc,
        opened,
        StampKind::Archive,
        token,
        moment,
        externals,
    ) {
        Ok(()) => {}
        Err(objection) => return Err(objection),
    }
    judge_complete(alloc, &opened.parts, policy)
}

// The tests on the octets of an item, at a moment.
fn judge_octets(
    alloc: Global,
    doc: Doc<'_>,
    opened: &Opened,
    item: &Item,
    policy: &Policy,
    moment: i64,
    externals: &Externals,
) -> Result<(), Objection>
    requires { IsOpened (handed_in externals.now) doc opened.now }
    ensures { IsTested (octets_test item.now.kind item.now.bytes (rules policy.now) (handed_in externals.now) moment (document_in doc.entry) (spot_of doc.entry opened.now.parts.signature)) result }
{
    let octets = item.bytes.as_slice();
    match item.kind {
        ItemKind::Value => Ok(()),
        ItemKind::Stamp => {
            judge_stamp(
                alloc,
                doc,
                opened,
                StampKind::Signature,
                octets,
                moment,
                externals,
            )
        }
        ItemKind::Material => judge_material(alloc, &opened.parts, octets),
        ItemKind::Archive => judge_archive(alloc, doc, opened, octets, policy, moment, externals),
    }
}

// The tests on an item that is to be put into the document at a moment: the signature, where none stands against it. Whether what the
// signature says is known to be right is handed in.
pub(crate) fn judge(
    alloc: Global,
    doc: Doc<'_>,
    item: &Item,
    policy: &Policy,
    moment: i64,
    externals: &Externals,
    is_valid: bool,
) -> Result<Opened, Objection>
    requires document { length (bytes_in doc) ≤ 16777216 }
    requires externals { AreShort (handed_in externals.now) }
    requires valid { is_valid ≡ true → IsValid (rules policy.now) (handed_in externals.now) (document_in doc) }
    ensures { IsJudged (rules policy.now) (handed_in externals.now) moment item.now doc.entry result }
{
    let opened = match open(alloc, doc, externals) {
        Ok(opened) => opened,
        Err(objection) => return Err(objection),
    };
    match judge_signature(alloc, doc, &opened, item, policy, externals, is_valid) {
        Ok(()) => {}
        Err(objection) => return Err(objection),
    }
    match judge_octets(alloc, doc, &opened, item, policy, moment, externals) {
        Ok(()) => Ok(opened),
        Err(objection) => Err(objection),
    }
}
