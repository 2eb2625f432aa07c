//! The signing certificate, and the signature value under its key.

ghost use Rattle.std.specs.Prelude.{◌≡◌, List, IfOk, OnOk, true, Some, ◌<◌, ◌^◌, ◌-◌, ◌↔◌, IsTrue, length};
ghost use Rattle.doc_spans.specs.declared.documents.Doc.{Doc};
ghost use Rattle.doc_spans.specs.Seen.{document_in};
ghost use Rattle.qualifying_props.specs.Digests.{digest};
ghost use Rattle.qualifying_props.specs.PartsOf.{AreParts};
ghost use Rattle.qualifying_props.specs.Whole.{IsWhole};
ghost use Rattle.qualifying_props.specs.Wholes.{AreWhole};
ghost use Rattle.signature_elements.specs.Standing.{spot_of};
ghost use Rattle.signature_model.specs.Octets.{value_octets};
ghost use Rattle.signature_model.specs.Parts.{Certificate as IsCertificate, signing_certificate};
ghost use Rattle.signature_objects.specs.Held.{objects};
ghost use Rattle.signature_objects.specs.Objects.{Object, Certificate, has};
ghost use Rattle.case_steps.specs.Built.{ShowsObjects};
ghost use Rattle.signature_cases.specs.Signer.{HasKeyFor, IsCert, IsCertOf, IsKeyFor};
ghost use Rattle.signature_cases.specs.declared.cases.SigningCert as certs;

use crate::cases::SigningCert;
use algorithms::{SignatureKind, verify};
use archive_octets::signed_octets;
use cert_paths::kind_named;
use doc_spans::Doc;
use existence_times::Case;
use qualifying_props::SignatureParts;
use std::alloc::Global;
use x509_certs::{Part, read_certificate};
use xa_io::{Octets, OutOfMemory};

// Whether the key of the signing certificate is of the kind of a signature, and whether the value verifies under it.
#[derive(Clone, Copy)]
pub(crate) struct KeyFor {
    pub(crate) keyed: bool,
    pub(crate) verifies: bool,
}

// Whether a case has a number for one more object.
pub(crate) fn has_room(case: &Case) -> bool
    ensures { IsTrue result ↔ (length case.now.pool < 2 ^ 32 - 1) }
{
    case.pool().objects() < u32::MAX
}

// A certificate that is one of the objects of a case.
fn find_cert<'a>(case: &mut Case, octets: &'a [u8]) -> Result<SigningCert<'a>, OutOfMemory>
    requires whole { IsWhole IsCertificate octets.now }
    ensures octets { IfOk result (λ cert. cert.octets.now ≡ octets.now) }
    ensures found { (objects : List Object) → ShowsObjects objects case.old → has objects (Certificate octets.now) ≡ true
        → OnOk result (case.new ≡ case.old) × IfOk result (IsCert objects octets.now) }
{
    if !has_room(case) {
        return Err(OutOfMemory);
    }
    let Ok(certificate) = read_certificate(octets) else {
        unreachable!()
    };
    let object = case.add_part(&Part::Cert(certificate))?;
    let _distinct = case.pool().parts();
    Ok(SigningCert { octets, object })
}

// The signing certificate, in a case with the objects of the signature.
pub(crate) fn signing_cert<'a>(
    case: &mut Case,
    parts: &'a SignatureParts,
) -> Result<Option<SigningCert<'a>>, OutOfMemory>
    requires parts { (doc : Doc) × AreParts doc parts.now }
    requires whole { AreWhole parts.now }
    ensures whole { IfOk result (λ signer. (cert : certs.SigningCert) → signer ≡ Some cert → IsWhole IsCertificate cert.octets.now) }
    ensures found { (doc : Doc) (more : List Object) → AreParts doc parts.now → ShowsObjects (objects (document_in doc) (spot_of doc parts.now.signature) more) case.old
        → OnOk result (case.new ≡ case.old)
        × IfOk result (IsCertOf (objects (document_in doc) (spot_of doc parts.now.signature) more) (signing_certificate digest (document_in doc) (spot_of doc parts.now.signature))) }
{
    match parts.signing_cert() {
        None => Ok(None),
        Some(number) => {
            let cert = find_cert(case, parts.key_cert(number))?;
            Ok(Some(cert))
        }
    }
}

// What the key of a whole certificate is for a signature of a kind.
#[tactic(auto, unfolding(acceptance::specs::Objects::certificate_of))]
fn judge_key(kind: SignatureKind, certificate: &[u8], signed: &[u8], value: &[u8]) -> KeyFor
    requires whole { IsWhole IsCertificate certificate.now }
    ensures { IsKeyFor kind certificate.now signed.now value.now result }
{
    let Ok(certificate) = read_certificate(certificate) else {
        unreachable!()
    };
    let keyed = kind_named(certificate.key_oid()) == Some(kind);
    let verifies = keyed && verify(kind, certificate.key(), signed, value);
    KeyFor { keyed, verifies }
}

// What the key of the signing certificate is for the value of a signature, where it has both.
pub(crate) fn judge_signer(
    alloc: Global,
    doc: Doc<'_>,
    parts: &SignatureParts,
    kind: Option<SignatureKind>,
    signer: Option<SigningCert<'_>>,
) -> Result<KeyFor, OutOfMemory>
    requires parts { AreParts doc parts.now }
    requires whole { (cert : certs.SigningCert) → signer ≡ Some cert → IsWhole IsCertificate cert.octets.now }
    ensures { IfOk result (HasKeyFor kind signer.entry (value_octets (document_in doc.entry) (spot_of doc.entry parts.now.signature)) parts.now.value) }
{
    let none = KeyFor {
        keyed: false,
        verifies: false,
    };
    let Some(kind) = kind else {
        return Ok(none);
    };
    let Some(signer) = signer else {
        return Ok(none);
    };
    let signed = signed_octets(alloc, doc, parts)?;
    Ok(judge_key(kind, signer.octets, signed.as_slice(), parts.value()))
}
