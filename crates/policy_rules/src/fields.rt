//! The fields of a table.

ghost use Rattle.std.specs.Prelude.{◌≡◌, ◌≤◌, None, Some, is_none, option_map, IfOk};
ghost use Rattle.toml.specs.Data.{get_member};
ghost use Rattle.toml.specs.View.{view, table_view, array_view};
ghost use Rattle.utc_times.specs.TimeText.{time_of};
ghost use Rattle.policy_rules.specs.Faults.{GivesValue};
ghost use Rattle.policy_rules.specs.Fields as meaning;

use crate::fault::FieldError;
use algorithms::{DigestKind, SignatureKind};
use toml::value::Array;
use toml::{Table, Value};
use utc_times::read_time;

/// Where a table stands: it is the whole text, or an entry of `kind` or of `digest`.
#[derive(Clone, Copy, Debug)]
pub(crate) enum Place {
    Whole,
    Kind,
    Digest,
}

fn value_at<'a>(key: &str, table: &'a Table) -> Option<&'a Value>
    ensures { option_map (λ v. view v.now) result ≡ get_member key.now (table_view table.now) }
{
    table.get(key)
}

/// The text at a key.
pub(crate) fn text_at<'a>(key: &str, table: &'a Table) -> Result<&'a str, FieldError>
    ensures { GivesValue (λ s. s.now) result (meaning.text_at key.now (table_view table.now)) }
{
    let Some(value) = value_at(key, table) else {
        return Err(FieldError::Refused);
    };
    match value.as_str() {
        Some(text) => Ok(text),
        None => Err(FieldError::Refused),
    }
}

/// The list at a key.
pub(crate) fn list_at<'a>(key: &str, table: &'a Table) -> Result<&'a Array, FieldError>
    ensures { GivesValue (λ a. array_view a.now) result (meaning.list_at key.now (table_view table.now)) }
{
    let Some(value) = value_at(key, table) else {
        return Err(FieldError::Refused);
    };
    match value.as_array() {
        Some(listed) => Ok(listed),
        None => Err(FieldError::Refused),
    }
}

/// The version, which is 1 or 2.
#[tactic(auto, unfolding(crate::specs::Fields::version_of))]
pub(crate) fn version(table: &Table) -> Result<u32, FieldError>
    ensures value { GivesValue (λ v. v) result (meaning.version_of (table_view table.now)) }
    ensures known { IfOk result (λ v. (1 ≤ v) × (v ≤ 2)) }
{
    let Some(value) = value_at("version", table) else {
        return Err(FieldError::Refused);
    };
    match value.as_integer() {
        Some(1) => Ok(1),
        Some(2) => Ok(2),
        _ => Err(FieldError::Refused),
    }
}

fn time_of(text: &str) -> Result<Option<i64>, FieldError>
    ensures { GivesValue (λ t. t) result (option_map Some (time_of text.now)) }
{
    match read_time(text.as_bytes()) {
        Some(time) => Ok(Some(time)),
        None => Err(FieldError::Refused),
    }
}

/// The end that an entry gives by `until`, in seconds since 1970.
pub(crate) fn end_at(table: &Table) -> Result<Option<i64>, FieldError>
    ensures { GivesValue (λ t. t) result (meaning.end_at (table_view table.now)) }
{
    let Some(value) = value_at("until", table) else {
        return Ok(None);
    };
    match value.as_str() {
        Some(text) => time_of(text),
        None => Err(FieldError::Refused),
    }
}

/// The kind of signatures with this word.
pub(crate) fn signature_kind(word: &str) -> Result<SignatureKind, FieldError>
    ensures { GivesValue (λ k. k) result (meaning.signature_kind word.now) }
{
    if word == SignatureKind::Hss.word() {
        Ok(SignatureKind::Hss)
    } else if word == SignatureKind::Xmss.word() {
        Ok(SignatureKind::Xmss)
    } else if word == SignatureKind::XmssMt.word() {
        Ok(SignatureKind::XmssMt)
    } else {
        Err(FieldError::Refused)
    }
}

/// The kind of digests with this word.
pub(crate) fn digest_kind(word: &str) -> Result<DigestKind, FieldError>
    ensures { GivesValue (λ k. k) result (meaning.digest_kind word.now) }
{
    if word == DigestKind::Sha256.word() {
        Ok(DigestKind::Sha256)
    } else if word == DigestKind::Sha384.word() {
        Ok(DigestKind::Sha384)
    } else if word == DigestKind::Sha512.word() {
        Ok(DigestKind::Sha512)
    } else {
        Err(FieldError::Refused)
    }
}

fn is_known(place: Place, key: &str) -> bool
    ensures { result ≡ meaning.is_known place key.now }
{
    match place {
        Place::Whole => key == "version" || key == "anchors" || key == "kind" || key == "digest",
        Place::Kind => key == "name" || key == "uri" || key == "until",
        Place::Digest => key == "name" || key == "until",
    }
}

/// The least field, in the order of bytes, that a table at this place may not have.
pub(crate) fn first_unknown(place: Place, table: &Table) -> Option<&str>
    ensures { option_map (λ s. s.now) result ≡ meaning.first_unknown place (table_view table.now) }
{
    'keys: for (key, _) in table {
        if !is_known(place, key.as_str()) {
            return Some(key.as_str());
        }
    }
    None
}
