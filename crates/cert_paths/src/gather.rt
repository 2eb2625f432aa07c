//! The rows of a pool and a policy.

ghost use Rattle.std.specs.Prelude.{◌≡◌, ◌+◌, ◌++◌, ◌<◌, ◌^◌, ℕ, List, map, length, slice_get, Some, IfOk, OnOk};
ghost use Rattle.acceptance.specs.Certificates as objects;
ghost use Rattle.policy_rules.specs.View.{rules};
ghost use Rattle.x509_certs.specs.View.{certificate_bytes, list_bytes};
ghost use Rattle.acceptance.specs.Policy.{anchors_of};
ghost use Rattle.cert_paths.specs.Pool.{seen, part_numbers, AreDistinct};
ghost use Rattle.cert_paths.specs.Rows.{member_of, issuer_of, date_of, dates_of, AreCertificates, AreLists, AreCertificatesTo, AreListsTo};

use crate::object::ObjectId;
use crate::pool::Pool;
use crate::rows::{CertRow, IssuerRow, ListRow, cert_row, issuer_row, list_row};
use policy_rules::Policy;
use std::alloc::{AllocError, Global};
use x509_certs::{Certificate, Crl, Part};

// Puts a part of the pool to the certificates before it.
fn put_cert<'a>(
    rows: &mut Vec<CertRow<'a>>,
    object: ObjectId,
    part: Part<'a>,
) -> Result<(), AllocError>
    ensures { (pool : List objects.Part) → (n : ℕ) → AreCertificatesTo pool rows.old.items n → slice_get (part_numbers pool) n ≡ Some object.number →
        slice_get pool object.number ≡ Some (seen part.entry) → OnOk result (AreCertificatesTo pool rows.new.items (n + 1)) }
{
    match part {
        Part::Cert(certificate) => {
            rows.push(cert_row(object, certificate))?;
            Ok(())
        }
        Part::List(_) => Ok(()),
    }
}

/// The certificates of a pool.
pub(crate) fn cert_rows<'a>(alloc: Global, pool: &'a Pool) -> Result<Vec<CertRow<'a>>, AllocError>
    ensures rows { IfOk result (λ v. AreCertificates pool.now v.items) }
    ensures few { IfOk result (λ v. length v.items < 2 ^ 32) }
    ensures distinct { IfOk result (λ v. AreDistinct pool.now) }
{
    let mut rows = Vec::new(alloc);
    for number in 0..pool.parts() {
        put_cert(&mut rows, pool.part(number), pool.read(number))?;
    }
    Ok(rows)
}

// Puts a part of the pool to the CRLs before it.
fn put_list<'a>(
    rows: &mut Vec<ListRow<'a>>,
    object: ObjectId,
    part: Part<'a>,
) -> Result<(), AllocError>
    ensures { (pool : List objects.Part) → (n : ℕ) → AreListsTo pool rows.old.items n → slice_get (part_numbers pool) n ≡ Some object.number →
        slice_get pool object.number ≡ Some (seen part.entry) → OnOk result (AreListsTo pool rows.new.items (n + 1)) }
{
    match part {
        Part::Cert(_) => Ok(()),
        Part::List(list) => {
            rows.push(list_row(object, list))?;
            Ok(())
        }
    }
}

/// The CRLs of a pool.
pub(crate) fn list_rows<'a>(alloc: Global, pool: &'a Pool) -> Result<Vec<ListRow<'a>>, AllocError>
    ensures { IfOk result (λ v. AreLists pool.now v.items) }
{
    let mut rows = Vec::new(alloc);
    for number in 0..pool.parts() {
        put_list(&mut rows, pool.part(number), pool.read(number))?;
    }
    Ok(rows)
}

fn pool_issuers<'a>(alloc: Global, certs: &[CertRow<'a>]) -> Result<Vec<IssuerRow<'a>>, AllocError>
    ensures { IfOk result (λ v. map issuer_of v.items ≡ map (λ r. (member_of r).certificate) certs.now) }
{
    let mut rows = Vec::new(alloc);
    for cert in certs {
        rows.push(issuer_row(cert.certificate))?;
    }
    Ok(rows)
}

fn anchor_rows<'a>(alloc: Global, policy: &'a Policy) -> Result<Vec<IssuerRow<'a>>, AllocError>
    ensures { IfOk result (λ v. map issuer_of v.items ≡ anchors_of (rules policy.now)) }
{
    let mut rows = Vec::new(alloc);
    for number in 0..policy.anchors() {
        rows.push(issuer_row(policy.anchor(number)))?;
    }
    Ok(rows)
}

/// What may be an issuer: the certificates of the pool, and behind them the anchors.
pub(crate) fn issuer_rows<'a>(
    alloc: Global,
    certs: &[CertRow<'a>],
    policy: &'a Policy,
) -> Result<Vec<IssuerRow<'a>>, AllocError>
    ensures { IfOk result (λ v. map issuer_of v.items ≡ map (λ r. (member_of r).certificate) certs.now ++ anchors_of (rules policy.now)) }
{
    let mut rows = pool_issuers(alloc, certs)?;
    let anchors = anchor_rows(alloc, policy)?;
    rows.extend_from_slice(anchors.as_slice())?;
    Ok(rows)
}

// The date at which a CRL lists a certificate that names its issuer.
fn date_of(certificate: &Certificate<'_>, list: &Crl<'_>) -> Option<i64>
    ensures { result ≡ date_of (certificate_bytes certificate.now) (list_bytes list.now) }
{
    if list.issuer() == certificate.issuer() {
        list.revoked(certificate.serial())
    } else {
        None
    }
}

fn date_row(
    alloc: Global,
    certificate: &Certificate<'_>,
    rows: &[ListRow<'_>],
) -> Result<Vec<Option<i64>>, AllocError>
    ensures { IfOk result (λ v. v.items ≡ map (λ l. date_of (certificate_bytes certificate.now) (list_bytes l.list)) rows.now) }
{
    rows.iter()
        .map(|row| date_of(certificate, &row.list))
        .collect(alloc)
}

/// The earliest date at which each CRL of the name of its issuer lists each certificate.
pub(crate) fn dates(
    alloc: Global,
    certs: &[CertRow<'_>],
    rows: &[ListRow<'_>],
) -> Result<Vec<Vec<Option<i64>>>, AllocError>
    ensures { IfOk result (λ v. map (λ d. d.items) v.items ≡ map (λ c. dates_of c rows.now) certs.now) }
{
    let mut all = Vec::new(alloc);
    for cert in certs {
        let row = date_row(alloc, &cert.certificate, rows)?;
        all.push(row)?;
    }
    Ok(all)
}
