//! What holds of a certificate or CRL and an issuer, whatever the times.

ghost use Rattle.std.specs.Prelude.{◌≡◌, ◌↔◌, ℕ, Some, None, Option, IsTrue};
ghost use Rattle.algorithms.specs.declared.signature_kinds.SignatureKind as kinds;
ghost use Rattle.policy_rules.specs.Rules.{AcceptsKind};
ghost use Rattle.policy_rules.specs.View.{rules};
ghost use Rattle.x509_certs.specs.View.{certificate_bytes, list_bytes};
ghost use Rattle.acceptance.specs.Certificates.{Verifies};
ghost use Rattle.acceptance.specs.Objects as says;
ghost use Rattle.acceptance.specs.Walks.{IsSigned, IsCrlOf, IsSelfIssued, IsWithin};

use algorithms::{SignatureKind, verify};
use policy_rules::Policy;
use x509_certs::{Certificate, Crl};

/// The kind with this object identifier, by its content octets.
pub fn kind_named(oid: &[u8]) -> Option<SignatureKind>
    ensures { result ≡ says.kind_named oid.now }
{
    SignatureKind::of_oid(oid)
}

/// Whether the policy accepts a kind at a time; no kind is never accepted.
pub fn is_kind_accepted(policy: &Policy, kind: Option<SignatureKind>, at: i64) -> bool
    ensures { IsTrue result ↔ ((k : kinds.SignatureKind) × (kind ≡ Some k) × AcceptsKind (rules policy.now) k at) }
{
    match kind {
        None => false,
        Some(kind) => policy.kind_accepted(kind, at),
    }
}

/// Whether so many certificates are no more than a path length allows.
pub(crate) fn is_within(counted: usize, path_len: Option<u32>) -> bool
    ensures { IsTrue result ↔ IsWithin counted path_len }
{
    match path_len {
        None => true,
        Some(most) => counted <= most as usize,
    }
}

// Whether a signature verifies under a key: both are of one known kind, and its verdict is good.
fn verifies(key_oid: &[u8], key: &[u8], sign_oid: &[u8], message: &[u8], signature: &[u8]) -> bool
    ensures { IsTrue result ↔ Verifies
        (record { kind = says.kind_named key_oid.now; octets = key.now })
        (record { kind = says.kind_named sign_oid.now; signed = message.now; octets = signature.now }) }
{
    let Some(kind) = kind_named(sign_oid) else {
        return false;
    };
    kind_named(key_oid) == Some(kind) && verify(kind, key, message, signature)
}

#[tactic(auto, unfolding(acceptance::specs::Objects::certificate_of))]
fn is_certificate_verified(certificate: &Certificate<'_>, issuer: &Certificate<'_>) -> bool
    ensures { IsTrue result ↔ Verifies (says.certificate_of (certificate_bytes issuer.now)).key (says.certificate_of (certificate_bytes certificate.now)).signature }
{
    verifies(
        issuer.key_oid(),
        issuer.key(),
        certificate.sign_oid(),
        certificate.tbs(),
        certificate.signature(),
    )
}

#[tactic(auto, unfolding(acceptance::specs::Objects::certificate_of, acceptance::specs::Objects::crl_of))]
fn is_list_verified(list: &Crl<'_>, issuer: &Certificate<'_>) -> bool
    ensures { IsTrue result ↔ Verifies (says.certificate_of (certificate_bytes issuer.now)).key (says.crl_of (list_bytes list.now)).signature }
{
    verifies(
        issuer.key_oid(),
        issuer.key(),
        list.sign_oid(),
        list.tbs(),
        list.signature(),
    )
}

/// Whether a certificate is signed by an issuer that may do so. What is cheap is asked first.
#[tactic(auto, unfolding(acceptance::specs::Objects::certificate_of))]
pub(crate) fn is_signed(certificate: &Certificate<'_>, issuer: &Certificate<'_>) -> bool
    ensures { IsTrue result ↔ IsSigned (says.certificate_of (certificate_bytes certificate.now)) (says.certificate_of (certificate_bytes issuer.now)) }
{
    if certificate.issuer() != issuer.subject() {
        return false;
    }
    if certificate.strange() {
        return false;
    }
    if !issuer.is_ca() {
        return false;
    }
    if !issuer.signs_certs() {
        return false;
    }
    is_certificate_verified(certificate, issuer)
}

/// Whether a CRL speaks for an issuer, where it is known whether the CRL is usable. What is cheap is asked first.
#[tactic(auto, unfolding(acceptance::specs::Objects::certificate_of, acceptance::specs::Objects::crl_of))]
pub(crate) fn is_list_of(issuer: &Certificate<'_>, list: &Crl<'_>, usable: bool) -> bool
    requires { usable ≡ (says.crl_of (list_bytes list.now)).usable }
    ensures { IsTrue result ↔ IsCrlOf (says.certificate_of (certificate_bytes issuer.now)) (says.crl_of (list_bytes list.now)) }
{
    if list.issuer() != issuer.subject() {
        return false;
    }
    if !issuer.signs_crls() {
        return false;
    }
    if !usable {
        return false;
    }
    is_list_verified(list, issuer)
}

/// Whether a certificate's subject is its issuer.
#[tactic(auto, unfolding(acceptance::specs::Objects::certificate_of))]
pub(crate) fn is_self_issued(certificate: &Certificate<'_>) -> bool
    ensures { IsTrue result ↔ IsSelfIssued (says.certificate_of (certificate_bytes certificate.now)) }
{
    certificate.subject() == certificate.issuer()
}
