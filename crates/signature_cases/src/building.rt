//! What the signature of a document shows, built in memory.

ghost use Rattle.std.specs.Prelude.{◌≡◌, List, ℕ, [], IfOk, Ok, encode_utf8_all, length, nat_le};
ghost use Rattle.std.specs.Str.{chars};
ghost use Rattle.doc_spans.specs.declared.documents.Doc.{Doc};
ghost use Rattle.doc_spans.specs.Seen.{document_in};
ghost use Rattle.policy_rules.specs.Rules.{kind_of_uri};
ghost use Rattle.policy_rules.specs.View.{rules};
ghost use Rattle.qualifying_props.specs.Answers.{IsAnswer};
ghost use Rattle.reference_chains.specs.HandedIn.{handed_in};
ghost use Rattle.references.specs.RefsOf.{AreRefsOf};
ghost use Rattle.signature_elements.specs.Standing.{spot_of};
ghost use Rattle.signature_objects.specs.Held.{objects};
ghost use Rattle.signature_objects.specs.Objects.{limited, most_objects};
ghost use Rattle.signature_evidence.specs.Evidence.{evidence_of};
ghost use Rattle.signature_evidence.specs.Material.{material_of};
ghost use Rattle.case_steps.specs.Built.{ShowsObjects};
ghost use Rattle.signature_cases.specs.Built.{IsBuilt, IsCounted};
ghost use Rattle.signature_cases.specs.Handed.{IsMaterial};
ghost use Rattle.signature_cases.specs.Stamps.{AreMarks};

use crate::cases::{Counted, SignatureCase};
use crate::digests::reference_digests;
use crate::keys::{judge_signer, signing_cert};
use crate::marking::{Marked, marked_case};
use crate::material::add_material;
use crate::stamps::put_stamps;
use algorithms::SignatureKind;
use doc_spans::Doc;
use existence_times::Case;
use policy_rules::Policy;
use qualifying_props::SignatureParts;
use references::{Externals, Refs};
use std::alloc::Global;
use xa_io::OutOfMemory;

// Whether a case with all objects of a signature has no more than 256 certificates, revocation lists and tokens: one more with the value,
// besides the References.
fn is_small(case: &Case, parts: &SignatureParts) -> bool
    ensures { (doc : Doc) (bytes : List ℕ) → IsAnswer doc (Ok parts.now) → ShowsObjects (objects (document_in doc) (spot_of doc parts.now.signature) (material_of bytes)) case.now
        → result ≡ nat_le (limited (objects (document_in doc) (spot_of doc parts.now.signature) (material_of bytes))) most_objects }
{
    let objects = case.pool().objects() as usize;
    objects.saturating_sub(parts.references()) <= 257
}

// The kind of a signature method by a policy.
fn kind_of(policy: &Policy, method: &str) -> Option<SignatureKind>
    ensures { result ≡ kind_of_uri (rules policy.now).kinds (encode_utf8_all (chars method.now)) }
{
    policy.kind_of_uri(method)
}

// What a signature shows, by a case with all its objects and no time-stamps yet.
fn fill<'a>(
    alloc: Global,
    doc: Doc<'_>,
    parts: &'a SignatureParts,
    refs: &Refs,
    externals: &Externals,
    policy: &Policy,
    marked: Marked,
) -> Result<SignatureCase<'a>, OutOfMemory>
    requires parts { IsAnswer doc (Ok parts.now) }
    requires refs { AreRefsOf doc parts.now refs.now }
    requires shows { (bytes : List ℕ) × ShowsObjects (objects (document_in doc) (spot_of doc parts.now.signature) (material_of bytes)) marked.case }
    requires none { marked.case.stamps ≡ [] }
    requires many { length marked.marks.items ≡ length parts.now.properties }
    requires marks { AreMarks (document_in doc) (spot_of doc parts.now.signature) marked.marks.items }
    ensures { let document = document_in doc.entry in let signature = spot_of doc.entry parts.now.signature in
        (bytes : List ℕ) → ShowsObjects (objects document signature (material_of bytes)) marked.case
        → IfOk result (IsBuilt (rules policy.now) (evidence_of (handed_in externals.now) document signature (material_of bytes))) }
{
    let Marked { mut case, marks } = marked;
    let references = reference_digests(alloc, doc, refs, externals)?;
    let certificate = signing_cert(&mut case, parts)?;
    let kind = kind_of(policy, parts.method());
    let key = judge_signer(alloc, doc, parts, kind, certificate)?;
    let stamps = put_stamps(
        alloc,
        doc,
        parts,
        refs,
        externals,
        &mut case,
        marks.as_slice(),
    )?;
    Ok(SignatureCase {
        case,
        references,
        certificate_kind: parts.cert_digest_kind(),
        certificate,
        kind,
        keyed: key.keyed,
        verifies: key.verifies,
        stamps,
    })
}

/// What the signature of a document shows for its judgement by a policy, with certificates and revocation lists that are handed in, one
/// after another in DER.
///
/// The parts are those of `read_signature`, and the References those of `read_refs`. Where there are too many objects, no octets are made.
/// Err: memory could not be had.
pub fn build<'a>(
    alloc: Global,
    doc: Doc<'_>,
    parts: &'a SignatureParts,
    refs: &Refs,
    externals: &Externals,
    policy: &Policy,
    more: &[u8],
) -> Result<Counted<'a>, OutOfMemory>
    requires parts { IsAnswer doc (Ok parts.now) }
    requires refs { AreRefsOf doc parts.now refs.now }
    requires more { IsMaterial more.now }
    ensures { let document = document_in doc.entry in let signature = spot_of doc.entry parts.now.signature in
        IfOk result (IsCounted (rules policy.now) (evidence_of (handed_in externals.now) document signature (material_of more.now))) }
{
    let mut marked = marked_case(alloc, parts)?;
    add_material(&mut marked.case, more)?;
    if !is_small(&marked.case, parts) {
        return Ok(Counted::TooLarge);
    }
    let built = fill(alloc, doc, parts, refs, externals, policy, marked)?;
    Ok(Counted::Built(built))
}
