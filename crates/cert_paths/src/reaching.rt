//! Which issuers are reached from the anchors, and who is signed by these.
//!
//! A walk goes down from an anchor, so only what an issuer that is reached signed is ever asked. The issuers are reached level by level,
//! and a signature is verified once, at the level that reaches its issuer.

ghost use Rattle.std.specs.Prelude.{◌≡◌, ◌↔◌, ◌≤◌, ◌<◌, ℕ, length, IsTrue, IfOk};
ghost use Rattle.cert_paths.specs.Reached.{IsSignedTable, IsReached, IsClosed, HasIssuer};
ghost use Rattle.cert_paths.specs.Tables.{flag, IsRowOf};

use crate::relations::Signing;
use crate::rows::{CertRow, IssuerRow};
use crate::table::{is_set, look, table};
use std::alloc::{AllocError, Global};

// A walk has at most 8 certificates. Where chains are longer all issuers count as reached.
const LEVELS: usize = 9;

/// Who is signed by whom, for the issuers that are reached.
#[derive(Drop)]
pub(crate) struct Reach {
    pub(crate) reached: Vec<bool>,
    pub(crate) signed: Vec<Vec<bool>>,
}

// Whether some issuer signed the certificate of a row.
fn has_issuer(signed: &[Vec<bool>], columns: usize, row: usize) -> bool
    ensures { IsTrue result ↔ HasIssuer signed.now columns row }
{
    for column in 0..columns {
        if look(signed, row, column) {
            return true;
        }
    }
    false
}

fn is_reached(
    first: usize,
    columns: usize,
    known: &[bool],
    signed: &[Vec<bool>],
    issuer: usize,
) -> bool
    ensures { IsTrue result ↔ IsReached first columns known.now signed.now issuer }
{
    if first <= issuer || is_set(known, issuer) {
        return true;
    }
    has_issuer(signed, columns, issuer)
}

// The issuers that are reached, where `known` were before.
fn reached_issuers(
    alloc: Global,
    first: usize,
    columns: usize,
    known: &[bool],
    signed: &[Vec<bool>],
) -> Result<Vec<bool>, AllocError>
    ensures { IfOk result (λ v. IsRowOf (IsReached first columns known.now signed.now) columns v.items) }
{
    let mut reached = Vec::new(alloc);
    for issuer in 0..columns {
        reached.push(is_reached(first, columns, known, signed, issuer))?;
    }
    Ok(reached)
}

fn all_issuers(alloc: Global, columns: usize) -> Result<Vec<bool>, AllocError>
    ensures { IfOk result (λ v. IsRowOf (λ j. j < columns) columns v.items) }
{
    let mut reached = Vec::new(alloc);
    for _ in 0..columns {
        reached.push(true)?;
    }
    Ok(reached)
}

// The table over more issuers that are reached, by the one before.
fn further(
    alloc: Global,
    certs: &[CertRow<'_>],
    issuers: &[IssuerRow<'_>],
    before: &Reach,
    reached: Vec<bool>,
) -> Result<Reach, AllocError>
    requires table { IsSignedTable certs.now issuers.now before.now.reached.items before.now.signed.items }
    requires stays { (j : ℕ) → j < length issuers.now → IsTrue (flag before.now.reached.items j) → IsTrue (flag reached.items j) }
    ensures table { IfOk result (λ r. IsSignedTable certs.now issuers.now r.reached.items r.signed.items) }
    ensures reached { IfOk result (λ r. r.reached.items ≡ reached.items) }
{
    let signing = Signing {
        certs,
        issuers,
        before: before.signed.as_slice(),
        known: before.reached.as_slice(),
        reached: reached.as_slice(),
    };
    let signed = table(alloc, &signing)?;
    Ok(Reach { reached, signed })
}

/// Which issuers are reached from the anchors, and who is signed by these. The anchors stand behind the issuers of the pool.
pub(crate) fn reach_from_anchors(
    alloc: Global,
    certs: &[CertRow<'_>],
    issuers: &[IssuerRow<'_>],
) -> Result<Reach, AllocError>
    ensures table { IfOk result (λ r. IsSignedTable certs.now issuers.now r.reached.items r.signed.items) }
    ensures closed { IfOk result (λ r. IsClosed (length certs.now) (length issuers.now) r.reached.items r.signed.items) }
{
    let mut reach = Reach {
        reached: Vec::new(alloc),
        signed: Vec::new(alloc),
    };
    for _ in 0..LEVELS {
        let known = reach.reached.as_slice();
        let signed = reach.signed.as_slice();
        let reached = reached_issuers(alloc, certs.len(), issuers.len(), known, signed)?;
        if reached.as_slice() == known {
            return Ok(reach);
        }
        reach = further(alloc, certs, issuers, &reach, reached)?;
    }
    let all = all_issuers(alloc, issuers.len())?;
    let reach = further(alloc, certs, issuers, &reach, all)?;
    Ok(reach)
}
