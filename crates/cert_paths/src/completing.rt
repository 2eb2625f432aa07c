//! Whether a certificate has all that a walk wants, whatever the times.

ghost use Rattle.std.specs.Prelude.{◌≡◌, ◌↔◌, length, IsTrue, IfOk};
ghost use Rattle.policy_rules.specs.View.{rules};
ghost use Rattle.acceptance.specs.Certificates.{Member};
ghost use Rattle.acceptance.specs.Walks.{HasCertificate, IsWalkComplete};
ghost use Rattle.cert_paths.specs.Tied.{AreTied, IsCompleteBy};

use crate::chart::Chart;
use crate::find::row_of;
use crate::links::{Links, Tables};
use crate::pool::Pool;
use crate::search::has_walk;
use crate::status::has_list;
use crate::table::{Relation, look, table};
use policy_rules::Policy;
use std::alloc::{AllocError, Global};
use xa_io::OutOfMemory;

// By the tables, a certificate may be linked to an issuer, whatever the times.
#[derive(Clone, Copy)]
struct Completing<'a, 'b> {
    tables: &'b Tables<'a>,
}

impl<'a, 'b> Relation for Completing<'a, 'b> {
    ghost holds = { λ s i j. IsCompleteBy s.tables.now i j };

    ghost rows = { λ s. length s.tables.now.certs.items };

    ghost columns = { λ s. length s.tables.now.issuers.items };

    fn rows(&self) -> usize {
        self.tables.certs.len()
    }

    fn columns(&self) -> usize {
        self.tables.issuers.len()
    }

    fn test(&self, row: usize, column: usize) -> bool {
        let tables = self.tables;
        look(tables.signed.as_slice(), row, column)
            && has_list(tables.lists.len(), tables.speaks.as_slice(), column)
    }
}

// Whether a certificate is complete, by the tables of its pool.
fn is_complete(alloc: Global, tables: &Tables<'_>, leaf: &[u8]) -> Result<bool, AllocError>
    requires tied { AreTied tables.now }
    requires leaf { (m : Member) × HasCertificate tables.now.pool.now m × (m.certificate.whole ≡ leaf.now) }
    ensures { IfOk result (λ answer. (m : Member) → HasCertificate tables.now.pool.now m → m.certificate.whole ≡ leaf.now →
        (IsTrue answer ↔ IsWalkComplete tables.now.pool.now (rules tables.now.policy.now) m)) }
{
    let Some(row) = row_of(tables.certs.as_slice(), leaf) else {
        return Ok(false);
    };
    let completing = Completing { tables };
    let bits = table(alloc, &completing)?;
    let chart = Chart {
        certs: tables.certs.as_slice(),
        issuers: tables.issuers.as_slice(),
        bits: bits.as_slice(),
    };
    let answer = has_walk(alloc, &chart, row)?;
    Ok(answer)
}

impl<'a> Links<'a> {
    /// Whether a certificate of the pool has all that a walk to an anchor wants, whatever the times: names, signatures, flags and path
    /// lengths, and a CRL of each issuer.
    ///
    /// `leaf` is a certificate of the pool by its bytes. No signature is verified here.
    pub fn complete(&self, alloc: Global, leaf: &[u8]) -> Result<bool, OutOfMemory>
        requires leaf { (m : Member) × HasCertificate self.now.pool m × (m.certificate.whole ≡ leaf.now) }
        ensures { IfOk result (λ answer. (m : Member) → HasCertificate self.now.pool m → m.certificate.whole ≡ leaf.now →
            (IsTrue answer ↔ IsWalkComplete self.now.pool self.now.policy m)) }
    {
        match is_complete(alloc, &self.tables, leaf) {
            Ok(answer) => Ok(answer),
            Err(_) => Err(OutOfMemory),
        }
    }
}

/// The same for one question alone; for more ask the `Links` of the pool and the policy, since each signature is verified here.
pub fn complete(
    alloc: Global,
    pool: &Pool,
    leaf: &[u8],
    policy: &Policy,
) -> Result<bool, OutOfMemory>
    requires leaf { (m : Member) × HasCertificate pool.now m × (m.certificate.whole ≡ leaf.now) }
    ensures { IfOk result (λ answer. (m : Member) → HasCertificate pool.now m → m.certificate.whole ≡ leaf.now →
        (IsTrue answer ↔ IsWalkComplete pool.now (rules policy.now) m)) }
{
    let links = Links::new(alloc, pool, policy)?;
    links.complete(alloc, leaf)
}
