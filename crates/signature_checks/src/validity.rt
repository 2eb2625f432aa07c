//! Whether what a signature says is right: its digests, its signing certificate, its method, and its value (XML Signature 1.1, section 3.2;
//! EN 319 132-1, clause 5.2.2).

ghost use Rattle.std.specs.Prelude.{◌≡◌, ◌≤◌, length, IfOk, option_map, Some};
ghost use Rattle.algorithms.specs.Digests.{digest_of};
ghost use Rattle.doc_spans.specs.Seen.{document_in, path_in};
ghost use Rattle.policy_rules.specs.View.{rules};
ghost use Rattle.qualifying_props.specs.PartsOf.{AreParts};
ghost use Rattle.qualifying_props.specs.Whole.{IsWhole};
ghost use Rattle.qualifying_props.specs.Wholes.{AreWhole};
ghost use Rattle.reference_chains.specs.HandedIn.{handed_in};
ghost use Rattle.references.specs.RefsOf.{AreRefs, AreRefsOf, reference_at};
ghost use Rattle.signature_elements.specs.Standing.{spot_of};
ghost use Rattle.signature_model.specs.Octets.{value_octets};
ghost use Rattle.signature_model.specs.Parts.{Certificate as IsCertificate};
ghost use Rattle.algorithms.specs.declared.signature_kinds.SignatureKind.{SignatureKind};
ghost use Rattle.x509_certs.specs.Certificates.{key};
ghost use Rattle.std.specs.Str.{chars};
ghost use Rattle.signature_checks.specs.Codes.{first_code};
ghost use Rattle.signature_checks.specs.Keys.{method_kind};
ghost use Rattle.signature_checks.specs.Validity.{digest_code, digest_test, signer_tests, validity_tests, value_test, verifies};

use crate::codes::Code;
use crate::keys::judge_method;
use crate::opening::Opened;
use algorithms::{Digest, DigestKind, Hasher, SignatureKind, verify};
use archive_octets::signed_octets;
use canon_forms::Form;
use doc_spans::Doc;
use policy_rules::Policy;
use qualifying_props::SignatureParts;
use references::{Externals, Refs, octets};
use std::alloc::Global;
use x509_certs::read_certificate;
use xa_io::{Octets, Octs, OutOfMemory};

const PLAIN: Form<'static> = Form::Inclusive { comments: false };

/// The digest of octets.
pub fn digest_of(kind: DigestKind, octets: &[u8]) -> Digest
    ensures { result ≡ digest_of kind octets.now }
{
    let mut hasher = Hasher::new(kind);
    hasher.put(octets);
    hasher.finish()
}

// A copy of octets.
fn copy_of(alloc: Global, octets: &[u8]) -> Result<Octs, OutOfMemory>
    ensures { IfOk result (λ copy. copy ≡ octets.now) }
{
    let mut copy = Octs::new(alloc);
    copy.push_all(octets)?;
    Ok(copy)
}

// What stands against the digest of the Reference with a number.
fn judge_digest(
    alloc: Global,
    doc: Doc<'_>,
    refs: &Refs,
    k: u32,
    externals: &Externals,
) -> Result<Option<Code>, OutOfMemory>
    requires refs { AreRefs doc refs.now }
    requires number { (1 ≤ k) × (k ≤ length refs.now.rows) }
    ensures { IfOk result (λ found. option_map (digest_code (handed_in externals.now) (document_in doc.entry) (path_in doc.entry refs.now.signature) k) (reference_at doc.entry refs.now k) ≡ Some found) }
{
    let octets = octets(alloc, doc, refs, k, externals, &PLAIN)?;
    let got = digest_of(refs.digest_kind(k), octets.as_slice());
    let told = refs.digest_value(k);
    if got.as_slice() == told {
        return Ok(None);
    }
    let want = copy_of(alloc, told)?;
    Ok(Some(Code::DigestDiffers { k, got, want }))
}

// The first Reference whose octets have another digest.
fn judge_digests(
    alloc: Global,
    doc: Doc<'_>,
    refs: &Refs,
    externals: &Externals,
) -> Result<Option<Code>, OutOfMemory>
    requires refs { AreRefs doc refs.now }
    ensures { IfOk result (λ found. found ≡ digest_test (handed_in externals.now) (document_in doc.entry) (spot_of doc.entry refs.now.signature)) }
{
    for number in 0..refs.len() {
        let found = judge_digest(alloc, doc, refs, number as u32 + 1, externals)?;
        match found {
            Some(code) => return Ok(Some(code)),
            None => {}
        }
    }
    Ok(None)
}

// Whether a value over octets verifies under the key of a whole certificate.
fn verifies(kind: SignatureKind, certificate: &[u8], octets: &[u8], value: &[u8]) -> bool
    requires { IsWhole IsCertificate certificate.now }
    ensures { result ≡ verifies kind (key certificate.now) octets.now value.now }
{
    match read_certificate(certificate) {
        Ok(certificate) => verify(kind, certificate.key(), octets, value),
        Err(_) => unreachable!(),
    }
}

// What stands against a value over octets, by the method of the signature and the certificate of its signer.
fn judge_value(
    policy: &Policy,
    method: &str,
    certificate: &[u8],
    octets: &[u8],
    value: &[u8],
) -> Option<Code>
    requires { IsWhole IsCertificate certificate.now }
    ensures { result ≡ value_test (method_kind (rules policy.now) (chars method.now)) certificate.now octets.now value.now }
{
    match policy.kind_of_uri(method) {
        None => None,
        Some(kind) => {
            if verifies(kind, certificate, octets, value) {
                None
            } else {
                Some(Code::ValueFails)
            }
        }
    }
}

// What stands against the method, the key of the signer's certificate, and the value.
fn judge_signer(
    alloc: Global,
    doc: Doc<'_>,
    parts: &SignatureParts,
    certificate: &[u8],
    policy: &Policy,
    value: &[u8],
) -> Result<Option<Code>, OutOfMemory>
    requires parts { AreParts doc parts.now }
    requires certificate { IsWhole IsCertificate certificate.now }
    ensures { IfOk result (λ found. found ≡ first_code (signer_tests (method_kind (rules policy.now) parts.now.method) certificate.now (value_octets (document_in doc.entry) (spot_of doc.entry parts.now.signature)) value.now)) }
{
    if let Some(code) = judge_method(policy, parts.method(), certificate) {
        return Ok(Some(code));
    }
    let octets = signed_octets(alloc, doc, parts)?;
    Ok(judge_value(
        policy,
        parts.method(),
        certificate,
        octets.as_slice(),
        value,
    ))
}

/// What stands against all that a signature says, where this is its value (XML Signature 1.1, section 3.2): the first Reference whose octets
/// have another digest (A15); no certificate of `KeyInfo` has the digest of the signing certificate (A16); the policy doesn't list the method
/// (A17); the key is of another kind (A18); the value doesn't verify (A19).
pub fn judge_validity(
    alloc: Global,
    doc: Doc<'_>,
    opened: &Opened,
    policy: &Policy,
    externals: &Externals,
    value: &[u8],
) -> Result<Option<Code>, OutOfMemory>
    requires parts { AreParts doc opened.now.parts }
    requires whole { AreWhole opened.now.parts }
    requires refs { AreRefsOf doc opened.now.parts opened.now.refs }
    ensures { IfOk result (λ found. found ≡ first_code (validity_tests (rules policy.now) (handed_in externals.now) (document_in doc.entry) (spot_of doc.entry opened.now.parts.signature) value.now)) }
{
    let differing = judge_digests(alloc, doc, &opened.refs, externals)?;
    if let Some(code) = differing {
        return Ok(Some(code));
    }
    let parts = &opened.parts;
    match parts.signing_cert() {
        None => Ok(Some(Code::CertificateDiffers)),
        Some(number) => {
            let certificate = parts.key_cert(number);
            judge_signer(alloc, doc, parts, certificate, policy, value)
        }
    }
}
