//! What a search needs that doesn't depend on times, kept from search to search.

ghost use Rattle.std.specs.Prelude.{◌≡◌, ◌<◌, ◌^◌, ◌++◌, IfOk, length, map};
ghost use Rattle.policy_rules.specs.View.{rules};
ghost use Rattle.acceptance.specs.Policy.{anchors_of};
ghost use Rattle.cert_paths.specs.Pool.{AreDistinct};
ghost use Rattle.cert_paths.specs.Rows.{member_of, issuer_of, AreCertificates, AreLists};
ghost use Rattle.cert_paths.specs.Tied.{AreTied};

use crate::gather::{cert_rows, dates, issuer_rows, list_rows};
use crate::pool::Pool;
use crate::reaching::{Reach, reach_from_anchors};
use crate::relations::Speaking;
use crate::rows::{CertRow, IssuerRow, ListRow};
use crate::table::table;
use policy_rules::Policy;
use std::alloc::{AllocError, Global};
use std::marker::Model;

/// The certificates and CRLs of a pool with the anchors of a policy: which issuers are reached from the anchors, whom these signed, which
/// CRLs speak for them, and when they list whom.
#[derive(Drop)]
pub(crate) struct Tables<'a> {
    pub(crate) pool: &'a Pool,
    pub(crate) policy: &'a Policy,
    pub(crate) certs: Vec<CertRow<'a>>,
    pub(crate) issuers: Vec<IssuerRow<'a>>,
    pub(crate) lists: Vec<ListRow<'a>>,
    pub(crate) reached: Vec<bool>,
    pub(crate) signed: Vec<Vec<bool>>,
    pub(crate) speaks: Vec<Vec<bool>>,
    pub(crate) dates: Vec<Vec<Option<i64>>>,
}

/// The links of a pool and a policy, for any number of questions.
///
/// Signatures are verified when the links are made, each once for each issuer of its name, and only for issuers that are anchors or lie
/// under one.
#[derive(Drop)]
pub struct Links<'a> {
    pub(crate) tables: Tables<'a>,
}

impl<'a> Model for Links<'a> {
    ghost use Rattle.policy_rules.specs.View.{rules};
    ghost use Rattle.cert_paths.specs.Origin.{Origin};

    ghost Value = { Origin };

    ghost use Rattle.cert_paths.specs.Tied.{AreTied};

    ghost view = { λ l. record { pool = l.tables.pool.now; policy = rules l.tables.policy.now } };

    ghost invariant = { λ l. AreTied l.tables };
}

// The rows of a pool and a policy.
#[derive(Drop)]
struct Rows<'a> {
    certs: Vec<CertRow<'a>>,
    issuers: Vec<IssuerRow<'a>>,
    lists: Vec<ListRow<'a>>,
}

fn rows_of<'a>(alloc: Global, pool: &'a Pool, policy: &'a Policy) -> Result<Rows<'a>, AllocError>
    ensures certs { IfOk result (λ r. AreCertificates pool.now r.certs.items × (length r.certs.items < 2 ^ 32) × AreDistinct pool.now) }
    ensures issuers { IfOk result (λ r. map issuer_of r.issuers.items ≡ map (λ c. (member_of c).certificate) r.certs.items ++ anchors_of (rules policy.now)) }
    ensures lists { IfOk result (λ r. AreLists pool.now r.lists.items) }
{
    let certs = cert_rows(alloc, pool)?;
    let issuers = issuer_rows(alloc, certs.as_slice(), policy)?;
    let lists = list_rows(alloc, pool)?;
    Ok(Rows {
        certs,
        issuers,
        lists,
    })
}

/// Makes the tables of a pool and a policy.
pub(crate) fn tables_of<'a>(
    alloc: Global,
    pool: &'a Pool,
    policy: &'a Policy,
) -> Result<Tables<'a>, AllocError>
    ensures pool { IfOk result (λ t. t.pool.now ≡ pool.now) }
    ensures policy { IfOk result (λ t. t.policy.now ≡ policy.now) }
    ensures tied { IfOk result AreTied }
{
    let rows = rows_of(alloc, pool, policy)?;
    let reach = reach_from_anchors(alloc, rows.certs.as_slice(), rows.issuers.as_slice())?;
    let speaking = Speaking {
        lists: rows.lists.as_slice(),
        issuers: rows.issuers.as_slice(),
        reached: reach.reached.as_slice(),
    };
    let speaks = table(alloc, &speaking)?;
    let dates = dates(alloc, rows.certs.as_slice(), rows.lists.as_slice())?;
    let Rows {
        certs,
        issuers,
        lists,
    } = rows;
    let Reach { reached, signed } = reach;
    Ok(Tables {
        pool,
        policy,
        certs,
        issuers,
        lists,
        reached,
        signed,
        speaks,
        dates,
    })
}
