//! Reads policies.

ghost use Rattle.std.specs.Prelude.{◌≡◌, ◌≤◌, map, codes, IfOk, vec_len};
ghost use Rattle.toml.specs.View.{table_view};
ghost use Rattle.policy_rules.specs.declared.fields.Place.TheVariants.{Whole};
ghost use Rattle.policy_rules.specs.Faults.{Gives, of_field};
ghost use Rattle.policy_rules.specs.Fields as meaning;
ghost use Rattle.policy_rules.specs.Text.{policy_of, rules_of, table_of, of_table, known};
ghost use Rattle.policy_rules.specs.View.{rules, kind_view, digest_view};

use crate::anchors::anchors;
use crate::entries::{DigestEntry, KindEntry, digests, kinds};
use crate::fault::{PolicyFault, of_field, of_name};
use crate::fields::{Place, first_unknown, version};
use crate::lists::anchor_texts;
use crate::policy::Policy;
use std::alloc::Global;
use toml::Table;

fn read_table(alloc: Global, bytes: &[u8]) -> Result<Table, PolicyFault>
    ensures { Gives table_view result (of_table (table_of bytes.now)) }
{
    let Ok(text) = str::from_utf8(bytes) else {
        return Err(PolicyFault::Toml);
    };
    match toml::table_from_str(alloc, text) {
        Ok(table) => Ok(table),
        Err(error) => {
            if error.is_memory() {
                Err(PolicyFault::OutOfMemory)
            } else {
                Err(PolicyFault::Toml)
            }
        }
    }
}

fn version_field(alloc: Global, table: &Table) -> Result<u32, PolicyFault>
    ensures value { Gives (λ v. v) result (of_field (codes "version") (meaning.version_of (table_view table.now))) }
    ensures known { IfOk result (λ v. (1 ≤ v) × (v ≤ 2)) }
{
    match version(table) {
        Ok(version) => Ok(version),
        Err(error) => Err(of_field(alloc, "version", error)),
    }
}

fn anchors_field(alloc: Global, table: &Table) -> Result<Vec<&str>, PolicyFault>
    ensures value { Gives (λ v. map (λ s. s.now) v.items) result (of_field (codes "anchors") (meaning.anchor_texts (table_view table.now))) }
    ensures some { IfOk result (λ v. 1 ≤ vec_len v) }
    ensures few { IfOk result (λ v. vec_len v ≤ 64) }
{
    match anchor_texts(alloc, table) {
        Ok(texts) => Ok(texts),
        Err(error) => Err(of_field(alloc, "anchors", error)),
    }
}

fn kind_field(alloc: Global, table: &Table) -> Result<Vec<KindEntry>, PolicyFault>
    ensures { Gives (λ v. map kind_view v.items) result (of_field (codes "kind") (meaning.kind_rules (table_view table.now))) }
{
    match kinds(alloc, table) {
        Ok(entries) => Ok(entries),
        Err(error) => Err(of_field(alloc, "kind", error)),
    }
}

fn digest_field(alloc: Global, table: &Table) -> Result<Vec<DigestEntry>, PolicyFault>
    ensures { Gives (λ v. map digest_view v.items) result (of_field (codes "digest") (meaning.digest_rules (table_view table.now))) }
{
    match digests(alloc, table) {
        Ok(entries) => Ok(entries),
        Err(error) => Err(of_field(alloc, "digest", error)),
    }
}

fn no_other_field(alloc: Global, table: &Table) -> Result<(), PolicyFault>
    ensures { Gives (λ u. u) result (known (meaning.first_unknown Whole (table_view table.now))) }
{
    match first_unknown(Place::Whole, table) {
        None => Ok(()),
        Some(name) => Err(of_name(alloc, name)),
    }
}

#[tactic(auto, unfolding(crate::specs::Text::rules_of))]
fn policy_of(alloc: Global, table: &Table) -> Result<Policy, PolicyFault>
    ensures { Gives rules result (rules_of (table_view table.now)) }
{
    let version = version_field(alloc, table)?;
    let texts = anchors_field(alloc, table)?;
    let kinds = kind_field(alloc, table)?;
    let digests = digest_field(alloc, table)?;
    no_other_field(alloc, table)?;
    let anchors = anchors(alloc, texts.as_slice())?;
    Ok(Policy {
        version,
        anchors,
        kinds,
        digests,
    })
}

/// Reads the text of a policy.
///
/// Ok exactly where it is one. Of several faults the first one is told: `Toml`, then the fields, then the anchors. `OutOfMemory`
/// says nothing of the text.
pub fn read_policy(alloc: Global, bytes: &[u8]) -> Result<Policy, PolicyFault>
    ensures { Gives rules result (policy_of bytes.now) }
{
    let table = read_table(alloc, bytes)?;
    policy_of(alloc, &table)
}
