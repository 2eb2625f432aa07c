//! The entries of `kind` and of `digest`.

ghost use Rattle.std.specs.Prelude.{◌≡◌, map};
ghost use Rattle.toml.specs.View.{view, array_view, table_view};
ghost use Rattle.policy_rules.specs.Faults.{GivesValue};
ghost use Rattle.policy_rules.specs.Fields as meaning;
ghost use Rattle.policy_rules.specs.View.{kind_view, digest_view};

use crate::distinct::{are_digests_new, are_kinds_new, are_uris_new};
use crate::fault::FieldError;
use crate::fields::{Place, digest_kind, end_at, first_unknown, list_at, signature_kind, text_at};
use crate::lists::uris;
use algorithms::{DigestKind, SignatureKind};
use std::alloc::Global;
use toml::value::Array;
use toml::{Table, Value};

/// A kind of signatures with the URIs of its methods. The end is in seconds since 1970.
#[derive(Debug, Drop)]
pub(crate) struct KindEntry {
    pub(crate) kind: SignatureKind,
    pub(crate) uris: Vec<String>,
    pub(crate) until: Option<i64>,
}

/// A kind of digests. The end is in seconds since 1970.
#[derive(Debug, Drop)]
pub(crate) struct DigestEntry {
    pub(crate) kind: DigestKind,
    pub(crate) until: Option<i64>,
}

#[tactic(auto, unfolding(crate::specs::Fields::kind_rule))]
fn kind_entry(alloc: Global, table: &Table) -> Result<KindEntry, FieldError>
    ensures { GivesValue kind_view result (meaning.kind_rule (table_view table.now)) }
{
    let word = text_at("name", table)?;
    let kind = signature_kind(word)?;
    let listed = list_at("uri", table)?;
    let uris = uris(alloc, listed)?;
    let until = end_at(table)?;
    match first_unknown(Place::Kind, table) {
        None => Ok(KindEntry { kind, uris, until }),
        Some(_) => Err(FieldError::Refused),
    }
}

#[tactic(auto, unfolding(crate::specs::Fields::digest_rule))]
fn digest_entry(table: &Table) -> Result<DigestEntry, FieldError>
    ensures { GivesValue digest_view result (meaning.digest_rule (table_view table.now)) }
{
    let word = text_at("name", table)?;
    let kind = digest_kind(word)?;
    let until = end_at(table)?;
    match first_unknown(Place::Digest, table) {
        None => Ok(DigestEntry { kind, until }),
        Some(_) => Err(FieldError::Refused),
    }
}

fn kind_entry_of(alloc: Global, value: &Value) -> Result<KindEntry, FieldError>
    ensures { GivesValue kind_view result (meaning.kind_rule_in (view value.now)) }
{
    match value.as_table() {
        Some(table) => kind_entry(alloc, table),
        None => Err(FieldError::Refused),
    }
}

fn digest_entry_of(value: &Value) -> Result<DigestEntry, FieldError>
    ensures { GivesValue digest_view result (meaning.digest_rule_in (view value.now)) }
{
    match value.as_table() {
        Some(table) => digest_entry(table),
        None => Err(FieldError::Refused),
    }
}

fn kind_list(alloc: Global, listed: &Array) -> Result<Vec<KindEntry>, FieldError>
    ensures { GivesValue (λ v. map kind_view v.items) result (meaning.each meaning.kind_rule_in (array_view listed.now)) }
{
    let mut entries = Vec::new(alloc);
    for value in listed {
        let entry = kind_entry_of(alloc, value)?;
        entries.push(entry)?;
    }
    Ok(entries)
}

fn digest_list(alloc: Global, listed: &Array) -> Result<Vec<DigestEntry>, FieldError>
    ensures { GivesValue (λ v. map digest_view v.items) result (meaning.each meaning.digest_rule_in (array_view listed.now)) }
{
    let mut entries = Vec::new(alloc);
    for value in listed {
        let entry = digest_entry_of(value)?;
        entries.push(entry)?;
    }
    Ok(entries)
}

/// The kinds of signatures that a policy accepts.
#[tactic(auto, unfolding(crate::specs::Fields::kind_rules))]
pub(crate) fn kinds(alloc: Global, table: &Table) -> Result<Vec<KindEntry>, FieldError>
    ensures { GivesValue (λ v. map kind_view v.items) result (meaning.kind_rules (table_view table.now)) }
{
    let listed = list_at("kind", table)?;
    let entries = kind_list(alloc, listed)?;
    if are_kinds_new(alloc, entries.as_slice())? && are_uris_new(alloc, entries.as_slice())? {
        Ok(entries)
    } else {
        Err(FieldError::Refused)
    }
}

/// The kinds of digests that a policy accepts.
#[tactic(auto, unfolding(crate::specs::Fields::digest_rules))]
pub(crate) fn digests(alloc: Global, table: &Table) -> Result<Vec<DigestEntry>, FieldError>
    ensures { GivesValue (λ v. map digest_view v.items) result (meaning.digest_rules (table_view table.now)) }
{
    let listed = list_at("digest", table)?;
    let entries = digest_list(alloc, listed)?;
    if are_digests_new(alloc, entries.as_slice())? {
        Ok(entries)
    } else {
        Err(FieldError::Refused)
    }
}
