//! The preparation of a signature (XML Signature 1.1, section 3.1; EN 319 132-1, clauses 4 and 5).

ghost use Rattle.std.specs.Prelude.{◌≡◌, ◌≤◌, ◌<◌, ◌^◌, None, IfOk, IfErr, OnOk, length};
ghost use Rattle.document_model.specs.Documents.{document_of};
ghost use Rattle.document_model.specs.Insertion.{Extends};
ghost use Rattle.doc_spans.specs.Seen.{document_in};
ghost use Rattle.policy_rules.specs.View.{rules};
ghost use Rattle.prepared_documents.specs.Bytes.{IsPreparedFrom};
ghost use Rattle.prepared_documents.specs.Judged.{AreHanded};
ghost use Rattle.prepared_documents.specs.Tests.{id_taken};
ghost use Rattle.qualifying_props.specs.Digests.{digest};
ghost use Rattle.qualifying_props.specs.Whole.{is_whole, IsWhole};
ghost use Rattle.signature_model.specs.Parts.{Certificate as IsCertificate};
ghost use Rattle.reference_chains.specs.HandedIn.{handed_in};
ghost use Rattle.signature_model.specs.Fragments.{written_octets};
ghost use Rattle.signature_model.specs.Prepared.{first_certificate, prepared_nodes};
ghost use Rattle.signature_drafts.specs.Digests.{IsPlain};
ghost use Rattle.augmenter.specs.Answers.{IsPreparation};
ghost use Rattle.augmenter.specs.Preparing.{IsReady, opening_tests};
ghost use Rattle.signature_checks.specs.Codes.{first_code};
ghost use Rattle.augmenter.specs.Answers.{IsRefusedFor};
ghost use Rattle.augmenter.specs.Targets.{ArePlaces};

use crate::named_octets::named_digests;
use crate::reading::read;
use crate::refusals::{Refusal, refuse};
use crate::taken::is_any_taken;
use crate::targets::{TargetTest, first_passing, places};
use doc_spans::Doc;
use insertions::GraftFault;
use node_index::Identifiers;
use policy_rules::Policy;
use reference_chains::{Externals, Place};
use signature_checks::{Code, digest_of, judge_method};
use signature_drafts::{Digests, Draft, properties_text, put_signature};
use signature_elements::{SignatureCount, counted};
use std::alloc::Global;
use xa_io::{Octs, OutOfMemory, Steps};

// Marks the steps of a preparation.
struct Preparing;

// What stands against a draft in a document before anything is put in: a signature is there; a URI names no element, several, or the
// document element; the policy doesn't list the method; the signer's key is of another kind.
fn objection(doc: Doc<'_>, draft: &Draft, places: &[Place], policy: &Policy) -> Option<Code>
    requires few { length places.now < 2 ^ 32 }
    requires places { ArePlaces doc draft.now.references places.now }
    requires signer { 1 ≤ length draft.now.certificates }
    requires certificate { IsWhole IsCertificate (first_certificate draft.now) }
    ensures { result ≡ first_code (opening_tests (rules policy.now) (document_in doc.entry) draft.now) }
{
    if !matches!(counted(doc), SignatureCount::Nothing) {
        return Some(Code::Several);
    }
    if let Some(k) = first_passing(doc, TargetTest::Missing, places) {
        return Some(Code::TargetMissing { k });
    }
    if let Some(k) = first_passing(doc, TargetTest::Several, places) {
        return Some(Code::TargetTwice { k });
    }
    if let Some(k) = first_passing(doc, TargetTest::Root(doc.root()), places) {
        return Some(Code::SelfCover { k });
    }
    judge_method(policy, draft.method(), draft.cert(0))
}

// The signature that a draft gives in a document.
fn write_signature(
    alloc: Global,
    doc: Doc<'_>,
    draft: &Draft,
    places: &[Place],
    externals: &Externals,
) -> Result<Octs, OutOfMemory>
    requires plain { IsPlain draft.now }
    requires places { ArePlaces doc draft.now.references places.now }
    requires certificate { 1 ≤ length draft.now.certificates }
    ensures { IfOk result (λ content. content ≡ written_octets (prepared_nodes digest (handed_in externals.now) (document_in doc.entry) draft.now)) }
{
    let kind = draft.digest();
    let references = named_digests(alloc, doc, draft, places, externals)?;
    let certificate = digest_of(kind, draft.cert(0));
    let text = properties_text(alloc, draft, &certificate)?;
    let properties = digest_of(kind, text.as_slice());
    let digests = Digests {
        references: references.as_slice(),
        certificate: &certificate,
        properties: &properties,
    };
    let mut content = Octs::new(alloc);
    put_signature(alloc, &mut content, draft, digests)?;
    Ok(content)
}

// The signature that is put into a document, and whether one of its identifiers is there already.
#[derive(Drop)]
struct Planned {
    content: Octs,
    taken: bool,
}

// What is put into a document for a draft, unless something stands against it before.
fn plan(
    alloc: Global,
    doc: Doc<'_>,
    draft: &Draft,
    policy: &Policy,
    externals: &Externals,
) -> Result<Planned, Refusal>
    requires draft { IsReady draft.now }
    ensures ok { OnOk result (first_code (opening_tests (rules policy.now) (document_in doc.entry) draft.now) ≡ None) }
    ensures content { IfOk result (λ plan. plan.content ≡ written_octets (prepared_nodes digest (handed_in externals.now) (document_in doc.entry) draft.now)) }
    ensures taken { IfOk result (λ plan. plan.taken ≡ id_taken (document_in doc.entry) draft.now) }
    ensures err { IfErr result (IsRefusedFor (first_code (opening_tests (rules policy.now) (document_in doc.entry) draft.now))) }
{
    let identifiers = Identifiers::of(alloc, doc)?;
    let places = places(alloc, doc, &identifiers, draft)?;
    if let Some(code) = objection(doc, draft, places.as_slice(), policy) {
        return Err(refuse(code));
    }
    Ok(Planned {
        content: write_signature(alloc, doc, draft, places.as_slice(), externals)?,
        taken: is_any_taken(alloc, &identifiers, draft)?,
    })
}

/// The document with an unsigned signature, made from a draft, as the last child of the document element (XML Signature 1.1, section 3.1;
/// EN 319 132-1, clauses 4 and 5). The digests are of what the draft's URIs name in the document as it is, and of what is handed in for
/// external ones.
///
/// The draft has at least one certificate, all of them whole, and at most 15 URIs, whose external octets are handed in.
///
/// Err: the document is refused; or the first code that stands against the draft, as item 0: a signature is there (A2), a URI names no
/// element (A6), several (A7) or the document element (A12), the policy doesn't list the method (A17), the key of the first certificate is
/// of another kind (A18), the new document passes a limit (A28), an identifier is taken (A29). Or memory could not be had.
pub fn prepare(
    alloc: Global,
    bytes: &[u8],
    draft: &Draft,
    policy: &Policy,
    externals: &Externals,
) -> Result<Octs, Refusal>
    requires size { length bytes.now ≤ 16777216 }
    requires draft { IsReady draft.now }
    requires handed { AreHanded (handed_in externals.now) draft.now.references }
    ensures answer { IsPreparation (rules policy.now) (handed_in externals.now) draft.now bytes.now result }
    // The new document holds the old one, and has the signature, which covers what was asked for, and takes a value.
    ensures extends { IfOk result (Extends bytes.now) }
    ensures prepared { IfOk result (λ new. IsPreparedFrom is_whole digest (handed_in externals.now) (document_of bytes.now) draft.now (document_of new)) }
{
    let mut steps: Steps<Preparing> = Steps::new();
    let mut live = read(alloc, bytes, &mut steps)?;
    let planned = match plan(alloc, live.doc(), draft, policy, externals) {
        Ok(planned) => planned,
        Err(refusal) => return Err(refusal),
    };
    let root = live.doc().root();
    match live.insert(root, planned.content.as_slice(), &mut steps) {
        Ok(()) => {}
        Err(GraftFault::TooLarge) => return Err(refuse(Code::TooLarge)),
        Err(GraftFault::OutOfMemory) => return Err(Refusal::OutOfMemory),
    }
    if planned.taken {
        return Err(refuse(Code::IdTaken));
    }
    Ok(live.into_bytes())
}
