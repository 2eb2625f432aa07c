//! The certificates and CRLs of a pool, with what a search reads of them often.

ghost use Rattle.std.specs.Prelude.{◌≡◌, ◌↔◌, IsTrue};
ghost use Rattle.x509_certs.specs.View.{certificate_bytes, list_bytes};
ghost use Rattle.acceptance.specs.Objects.{certificate_of, crl_of};
ghost use Rattle.acceptance.specs.Walks.{IsSelfIssued};

use crate::facts::{is_self_issued, kind_named};
use crate::object::ObjectId;
use algorithms::SignatureKind;
use x509_certs::{Certificate, Crl};

/// A certificate of a pool.
#[derive(Clone, Copy)]
pub(crate) struct CertRow<'a> {
    pub(crate) object: ObjectId,
    pub(crate) certificate: Certificate<'a>,
    pub(crate) kind: Option<SignatureKind>,
    pub(crate) not_before: i64,
    pub(crate) not_after: i64,
    pub(crate) self_issued: bool,
    ghost kind_is: { kind ≡ (certificate_of (certificate_bytes certificate)).signature.kind },
    ghost begin_is: { not_before ≡ (certificate_of (certificate_bytes certificate)).not_before },
    ghost end_is: { not_after ≡ (certificate_of (certificate_bytes certificate)).not_after },
    ghost self_is: { IsTrue self_issued ↔ IsSelfIssued (certificate_of (certificate_bytes certificate)) },
}

/// A certificate that may be an issuer, one of the pool or an anchor.
#[derive(Clone, Copy)]
pub(crate) struct IssuerRow<'a> {
    pub(crate) certificate: Certificate<'a>,
    pub(crate) path_len: Option<u32>,
    ghost length_is: { path_len ≡ (certificate_of (certificate_bytes certificate)).path_len },
}

/// A CRL of a pool.
#[derive(Clone, Copy)]
pub(crate) struct ListRow<'a> {
    pub(crate) object: ObjectId,
    pub(crate) list: Crl<'a>,
    pub(crate) kind: Option<SignatureKind>,
    pub(crate) this_update: i64,
    pub(crate) next_update: Option<i64>,
    pub(crate) usable: bool,
    ghost kind_is: { kind ≡ (crl_of (list_bytes list)).signature.kind },
    ghost this_is: { this_update ≡ (crl_of (list_bytes list)).this_update },
    ghost next_is: { next_update ≡ (crl_of (list_bytes list)).next_update },
    ghost usable_is: { usable ≡ (crl_of (list_bytes list)).usable },
}

#[tactic(auto, unfolding(acceptance::specs::Objects::certificate_of))]
pub(crate) fn cert_row<'a>(object: ObjectId, certificate: Certificate<'a>) -> CertRow<'a>
    ensures object { result.object ≡ object }
    ensures certificate { certificate_bytes result.certificate ≡ certificate_bytes certificate.entry }
{
    CertRow {
        object,
        certificate,
        kind: kind_named(certificate.sign_oid()),
        not_before: certificate.not_before(),
        not_after: certificate.not_after(),
        self_issued: is_self_issued(&certificate),
    }
}

#[tactic(auto, unfolding(acceptance::specs::Objects::certificate_of))]
pub(crate) fn issuer_row<'a>(certificate: Certificate<'a>) -> IssuerRow<'a>
    ensures { certificate_bytes result.certificate ≡ certificate_bytes certificate.entry }
{
    IssuerRow {
        certificate,
        path_len: certificate.path_len(),
    }
}

#[tactic(auto, unfolding(acceptance::specs::Objects::crl_of))]
pub(crate) fn list_row<'a>(object: ObjectId, list: Crl<'a>) -> ListRow<'a>
    ensures object { result.object ≡ object }
    ensures list { list_bytes result.list ≡ list_bytes list.entry }
{
    ListRow {
        object,
        list,
        kind: kind_named(list.sign_oid()),
        this_update: list.this_update(),
        next_update: list.next_update(),
        usable: list.usable(),
    }
}
