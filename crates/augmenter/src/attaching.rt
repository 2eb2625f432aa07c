//! The attachment of items to a document (XML Signature 1.1, section 3.1.2; EN 319 132-1, clause 5).

ghost use Rattle.std.specs.Prelude.{◌≡◌, ◌≤◌, true, nat_lt, [], IfOk, IfErr, OnOk, None, length};
ghost use Rattle.doc_spans.specs.Seen.{document_in};
ghost use Rattle.signature_model.specs.Readable.{Read, answer};
ghost use Rattle.base64.specs.GeneralPurpose.{IsBytes};
ghost use Rattle.attached_items.specs.ReadAgain.{IsReadFree};
ghost use Rattle.covered_items.specs.Whole.{IsWholeItem};
ghost use Rattle.document_model.specs.Documents.{document_of, fault};
ghost use Rattle.document_model.specs.Insertion.{Extends};
ghost use Rattle.item_contents.specs.Items.{item_of};
ghost use Rattle.item_contents.specs.Kept.{ArePartsOf, spot_in};
ghost use Rattle.policy_rules.specs.View.{rules};
ghost use Rattle.qualifying_props.specs.Whole.{is_whole};
ghost use Rattle.reference_chains.specs.HandedIn.{handed_in};
ghost use Rattle.signature_checks.specs.Opening.{AreShort};
ghost use Rattle.signature_model.specs.Keeping.{MayTake};
ghost use Rattle.signature_model.specs.Spots.{Spot};
ghost use Rattle.signature_objects.specs.Held.{objects};
ghost use Rattle.signature_objects.specs.Objects.{limited, most_objects};
ghost use Rattle.augmenter.specs.Attaching.{FilesHold, IsAttachment};
ghost use Rattle.augmenter.specs.Findings.{IsFoundIn};
ghost use Rattle.augmenter.specs.Items.{IsItemCode, IsMaterial, put_by, with_one};
ghost use Rattle.augmenter.specs.Judging.{IsPut, IsSplit, IsValid, refusal_by};

use crate::items::{Item, ItemKind};
use crate::judging::judge;
use crate::reading::read;
use crate::refusals::Refusal;
use doc_spans::Doc;
use insertions::{GraftFault, LiveDoc};
use item_contents::{Item as Content, MaterialFault, put_item, split_material};
use policy_rules::Policy;
use qualifying_props::{PartFault, SignatureParts, read_signature};
use reference_chains::Externals;
use signature_checks::{Code, Objection};
use signature_objects::count_objects;
use std::alloc::Global;
use xa_io::{Octs, OutOfMemory, Steps};

// Marks the steps of an attachment.
struct Attaching;

// The most certificates, revocation lists and tokens of a document.
const MOST_OBJECTS: usize = 256;

// Whether the signature of a document, which can be read, has too many certificates, revocation lists and tokens.
fn has_too_many(alloc: Global, doc: Doc<'_>) -> Result<bool, OutOfMemory>
    requires { (signature : Spot) × (answer is_whole (document_in doc) ≡ Read signature) }
    ensures { (signature : Spot) → answer is_whole (document_in doc.entry) ≡ Read signature
        → IfOk result (λ many. many ≡ nat_lt most_objects (limited (objects (document_in doc.entry) signature []))) }
{
    let parts = match read_signature(alloc, doc) {
        Ok(parts) => parts,
        Err(PartFault::OutOfMemory) => return Err(OutOfMemory),
        Err(_) => unreachable!(),
    };
    Ok(count_objects(alloc, &parts)? > MOST_OBJECTS)
}

// Puts a content into the document, unless the new one passes a limit.
fn put(
    alloc: Global,
    live: &mut LiveDoc,
    parts: &SignatureParts,
    content: Content<'_>,
    steps: &mut Steps<Attaching>,
) -> Result<(), Objection>
    requires parts { ArePartsOf live.old.bytes live.old.tree parts.now }
    requires read { IsReadFree is_whole (document_of live.old.bytes) (spot_in live.old.bytes live.old.tree parts.now.signature) }
    requires may { MayTake (document_of live.old.bytes) (spot_in live.old.bytes live.old.tree parts.now.signature) (item_of content) }
    requires whole { IsWholeItem is_whole (item_of content) }
    ensures { IsPut (spot_in live.old.bytes live.old.tree parts.now.signature) (item_of content.entry) live.old.bytes live.new.bytes result }
{
    match put_item(alloc, live, parts, content, steps) {
        Ok(()) => {}
        Err(GraftFault::TooLarge) => return Err(Objection::Found(Code::TooLarge)),
        Err(GraftFault::OutOfMemory) => return Err(Objection::OutOfMemory),
    }
    match has_too_many(alloc, live.doc()) {
        Ok(true) => Err(Objection::Found(Code::TooLarge)),
        Ok(false) => Ok(()),
        Err(_) => Err(Objection::OutOfMemory),
    }
}

// Puts validation data into the document, unless the new one passes a limit.
fn put_material(
    alloc: Global,
    live: &mut LiveDoc,
    parts: &SignatureParts,
    octets: &[u8],
    steps: &mut Steps<Attaching>,
) -> Result<(), Objection>
    requires parts { ArePartsOf live.old.bytes live.old.tree parts.now }
    requires read { IsReadFree is_whole (document_of live.old.bytes) (spot_in live.old.bytes live.old.tree parts.now.signature) }
    requires may { MayTake (document_of live.old.bytes) (spot_in live.old.bytes live.old.tree parts.now.signature) (put_by ItemKind.Material octets.now) }
    requires split { IsMaterial octets.now }
    ensures { IsPut (spot_in live.old.bytes live.old.tree parts.now.signature) (put_by ItemKind.Material octets.now) live.old.bytes live.new.bytes result }
{
    match split_material(alloc, octets) {
        Ok(material) => put(alloc, live, parts, material.item(), steps),
        Err(MaterialFault::OutOfMemory) => Err(Objection::OutOfMemory),
        Err(MaterialFault::NotWhole { .. }) => unreachable!(),
    }
}

// Puts an item of a kind into the document, unless the new one passes a limit.
fn put_octets(
    alloc: Global,
    live: &mut LiveDoc,
    parts: &SignatureParts,
    kind: ItemKind,
    octets: &[u8],
    steps: &mut Steps<Attaching>,
) -> Result<(), Objection>
    requires parts { ArePartsOf live.old.bytes live.old.tree parts.now }
    requires read { IsReadFree is_whole (document_of live.old.bytes) (spot_in live.old.bytes live.old.tree parts.now.signature) }
    requires may { MayTake (document_of live.old.bytes) (spot_in live.old.bytes live.old.tree parts.now.signature) (put_by kind octets.now) }
    requires whole { IsWholeItem is_whole (put_by kind octets.now) }
    requires split { IsSplit kind octets.now }
    ensures bytes { IsBytes octets.now }
    ensures put { IsPut (spot_in live.old.bytes live.old.tree parts.now.signature) (put_by kind octets.now) live.old.bytes live.new.bytes result }
{
    match kind {
        ItemKind::Value => put(alloc, live, parts, Content::Value(octets), steps),
        ItemKind::Stamp => put(alloc, live, parts, Content::Stamp(octets), steps),
        ItemKind::Material => put_material(alloc, live, parts, octets, steps),
        ItemKind::Archive => put(alloc, live, parts, Content::Archive(octets), steps),
    }
}

// Attaches an item to the document, unless a test stands against it. Whether what the signature says is known to be right is handed in.
fn attach_one(
    alloc: Global,
    live: &mut LiveDoc,
    item: &Item,
    policy: &Policy,
    moment: i64,
    externals: &Externals,
    is_valid: bool,
    steps: &mut Steps<Attaching>,
) -> Result<(), Objection>
    requires size { length live.old.bytes ≤ 16777216 }
    requires right { fault live.old.bytes ≡ None }
    requires externals { AreShort (handed_in externals.now) }
    requires valid { is_valid ≡ true → IsValid (rules policy.now) (handed_in externals.now) (document_of live.old.bytes) }
    ensures code { OnOk result (IsItemCode (rules policy.now) (handed_in externals.now) moment item.now live.old.bytes None) }
    ensures bytes { OnOk result (live.new.bytes ≡ with_one item.now live.old.bytes) }
    ensures small { OnOk result ((length live.new.bytes ≤ 16777216) × (fault live.new.bytes ≡ None)) }
    ensures octets { OnOk result (IsBytes item.now.bytes) }
    ensures err { IfErr result (IsFoundIn (IsItemCode (rules policy.now) (handed_in externals.now) moment item.now live.old.bytes)) }
{
    let opened = match judge(alloc, live.doc(), item, policy, moment, externals, is_valid) {
        Ok(opened) => opened,
        Err(objection) => return Err(objection),
    };
    put_octets(
        alloc,
        live,
        &opened.parts,
        item.kind,
        item.bytes.as_slice(),
        steps,
    )
}

// The item with a number is refused for what stands against it.
fn refuse_item(item: u32, objection: Objection) -> Refusal
    ensures { result ≡ refusal_by item objection }
{
    match objection {
        Objection::Found(code) => Refusal::Refused { item, code },
        Objection::OutOfMemory => Refusal::OutOfMemory,
    }
}

/// The document with items attached at a moment, one after another, each to the document with the earlier ones: a signature value is put into
/// the `SignatureValue` of its signature, all else as the last of its unsigned properties (XML Signature 1.1, section 4.3; EN 319 132-1, clauses
/// 4.3, 5.3, 5.4 and 5.5).
///
/// The moment `at` is in seconds since 1970. No octets that are handed in for References are longer than 33,554,432 bytes. With no items the
/// answer is the document itself.
///
/// Err: the document is refused; or the first item, counted from 1, against which a test stands, with its first code: A1 to A12 as in
/// `signature_checks::open`; the signature has a value already, for a value (A13), or has none, for all else (A14); A15 to A19 as in
/// `signature_checks::judge_validity`, over the item's value or the one that is there. A time-stamp's octets aren't one token that is sound over
/// what it will cover (A20), are of a time after the moment (A21), or before that of a time-stamp that it will cover (A22, for an archive
/// time-stamp), or come behind an archive time-stamp (A23, for one on the signature). An archive time-stamp or validation data come before any
/// time-stamp on the signature (A24). Validation data aren't whole certificates and revocation lists (A25), or are none (A26). A signer has no
/// complete walk to an anchor by what the signature has, before an archive time-stamp (A27, as in `completeness::first_incomplete`). The new
/// document passes a limit on bytes, depth, nodes, or certificates, revocation lists and tokens (A28). Or memory could not be had, or the first bad element of
/// validation data stands past their first 4,294,967,296 bytes.
pub fn attach(
    alloc: Global,
    bytes: &[u8],
    items: &[Item],
    policy: &Policy,
    at: i64,
    externals: &Externals,
) -> Result<Octs, Refusal>
    requires size { length bytes.now ≤ 16777216 }
    requires items { length items.now ≤ 64 }
    requires handed { AreShort (handed_in externals.now) }
    ensures answer { IsAttachment (rules policy.now) (handed_in externals.now) at items.now bytes.now result }
    // The new document holds the old one, and all that its signature covers.
    ensures extends { IfOk result (Extends bytes.now) }
    ensures hold { OnOk result (FilesHold (handed_in externals.now) items.now bytes.now) }
{
    let mut steps: Steps<Attaching> = Steps::new();
    let mut live = match read(alloc, bytes, &mut steps) {
        Ok(live) => live,
        Err(refusal) => return Err(refusal),
    };
    for number in 0..items.len() {
        // Whatever an accepted item puts in leaves what the signature says right.
        let is_valid = number > 0;
        match attach_one(
            alloc,
            &mut live,
            &items[number],
            policy,
            at,
            externals,
            is_valid,
            &mut steps,
        ) {
            Ok(()) => {}
            Err(objection) => return Err(refuse_item(number as u32 + 1, objection)),
        }
    }
    Ok(live.into_bytes())
}
