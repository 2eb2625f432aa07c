//! Whether a certificate is accepted under a list of times.

ghost use Rattle.std.specs.Prelude.{◌≡◌, ◌↔◌, ◌≤◌, length, IsTrue, IfOk};
ghost use Rattle.policy_rules.specs.View.{rules};
ghost use Rattle.acceptance.specs.Certificates.{Member};
ghost use Rattle.acceptance.specs.Walks.{HasCertificate, IsAccepted};
ghost use Rattle.cert_paths.specs.Status.{HaveTimes, HaveTimesOf};
ghost use Rattle.cert_paths.specs.Tied.{AreTied, IsLinkedBy};

use crate::chart::Chart;
use crate::find::row_of;
use crate::links::{Links, Tables, tables_of};
use crate::pool::Pool;
use crate::search::has_walk;
use crate::status::{date_row, is_current, is_in_time, is_revoked};
use crate::table::{Relation, look, table};
use crate::times::Times;
use policy_rules::Policy;
use std::alloc::{AllocError, Global};
use xa_io::OutOfMemory;

// By the tables, a certificate may be linked to an issuer, for a walk with `low` and `at`.
#[derive(Clone, Copy)]
struct Accepting<'a, 'b> {
    tables: &'b Tables<'a>,
    times: &'b Times,
    low: i64,
    at: i64,
    ghost certs_timed: { HaveTimesOf tables.now.certs.items times.now },
    ghost lists_timed: { HaveTimes tables.now.lists.items times.now },
}

impl<'a, 'b> Relation for Accepting<'a, 'b> {
    ghost holds = { λ s i j. IsLinkedBy s.tables.now s.times.now s.low s.at i j };

    ghost rows = { λ s. length s.tables.now.certs.items };

    ghost columns = { λ s. length s.tables.now.issuers.items };

    fn rows(&self) -> usize {
        self.tables.certs.len()
    }

    fn columns(&self) -> usize {
        self.tables.issuers.len()
    }

    fn test(&self, row: usize, column: usize) -> bool {
        let tables = self.tables;
        let cert = &tables.certs[row];
        if !look(tables.signed.as_slice(), row, column) {
            return false;
        }
        if !is_in_time(tables.policy, cert, self.times, self.low, self.at) {
            return false;
        }
        let revoked = is_revoked(
            date_row(tables.dates.as_slice(), row),
            tables.speaks.as_slice(),
            column,
            self.at,
        );
        if revoked {
            return false;
        }
        is_current(
            tables.policy,
            tables.lists.as_slice(),
            tables.speaks.as_slice(),
            column,
            self.times,
            self.at,
            cert.not_after,
        )
    }
}

// Whether a certificate is accepted, by the tables of its pool.
fn is_accepted(
    alloc: Global,
    tables: &Tables<'_>,
    times: &Times,
    leaf: &[u8],
    low: i64,
    at: i64,
) -> Result<bool, AllocError>
    requires tied { AreTied tables.now }
    requires leaf { (m : Member) × HasCertificate tables.now.pool.now m × (m.certificate.whole ≡ leaf.now) }
    requires times { length tables.now.pool.now ≤ length times.now }
    ensures { IfOk result (λ answer. (m : Member) → HasCertificate tables.now.pool.now m → m.certificate.whole ≡ leaf.now →
        (IsTrue answer ↔ IsAccepted tables.now.pool.now (rules tables.now.policy.now) times.now m low at)) }
{
    let Some(row) = row_of(tables.certs.as_slice(), leaf) else {
        return Ok(false);
    };
    let accepting = Accepting {
        tables,
        times,
        low,
        at,
    };
    let bits = table(alloc, &accepting)?;
    let chart = Chart {
        certs: tables.certs.as_slice(),
        issuers: tables.issuers.as_slice(),
        bits: bits.as_slice(),
    };
    let answer = has_walk(alloc, &chart, row)?;
    Ok(answer)
}

impl<'a> Links<'a> {
    /// The links of a pool and a policy.
    ///
    /// Signatures are verified here, each once for each issuer of its name that is an anchor or lies under one, and in no later call.
    pub fn new(alloc: Global, pool: &'a Pool, policy: &'a Policy) -> Result<Links<'a>, OutOfMemory>
        ensures { IfOk result (λ l. l ≡ record { pool = pool.now; policy = rules policy.now }) }
    {
        match tables_of(alloc, pool, policy) {
            Ok(tables) => Ok(Links { tables }),
            Err(_) => Err(OutOfMemory),
        }
    }

    /// Whether a certificate of the pool is accepted with `low` and `at` under a list of times, which has one for each object.
    pub fn accepted(
        &self,
        alloc: Global,
        times: &Times,
        leaf: &[u8],
        low: i64,
        at: i64,
    ) -> Result<bool, OutOfMemory>
        requires leaf { (m : Member) × HasCertificate self.now.pool m × (m.certificate.whole ≡ leaf.now) }
        requires times { length self.now.pool ≤ length times.now }
        ensures { IfOk result (λ answer. (m : Member) → HasCertificate self.now.pool m → m.certificate.whole ≡ leaf.now →
            (IsTrue answer ↔ IsAccepted self.now.pool self.now.policy times.now m low at)) }
    {
        match is_accepted(alloc, &self.tables, times, leaf, low, at) {
            Ok(answer) => Ok(answer),
            Err(_) => Err(OutOfMemory),
        }
    }
}

/// Whether a certificate of the pool is accepted with `low` and `at` under a list of times (RFC 5280, section 6, in this profile).
///
/// `leaf` is a certificate of the pool by its bytes, and `times` has a time for each object of the pool.
pub fn accepted(
    alloc: Global,
    pool: &Pool,
    times: &Times,
    leaf: &[u8],
    low: i64,
    at: i64,
    policy: &Policy,
) -> Result<bool, OutOfMemory>
    requires leaf { (m : Member) × HasCertificate pool.now m × (m.certificate.whole ≡ leaf.now) }
    requires times { length pool.now ≤ length times.now }
    ensures { IfOk result (λ answer. (m : Member) → HasCertificate pool.now m → m.certificate.whole ≡ leaf.now →
        (IsTrue answer ↔ IsAccepted pool.now (rules policy.now) times.now m low at)) }
{
    let links = Links::new(alloc, pool, policy)?;
    links.accepted(alloc, times, leaf, low, at)
}
