//! Lists of texts.

ghost use Rattle.std.specs.Prelude.{◌≡◌, ◌≤◌, map, string_bytes, IfOk, vec_len};
ghost use Rattle.toml.specs.Data.{as_str};
ghost use Rattle.toml.specs.View.{view, array_view, table_view};
ghost use Rattle.policy_rules.specs.Faults.{GivesValue};
ghost use Rattle.policy_rules.specs.Fields as meaning;

use crate::fault::FieldError;
use crate::fields::list_at;
use std::alloc::Global;
use toml::value::Array;
use toml::{Table, Value};

fn text_of(value: &Value) -> Result<&str, FieldError>
    ensures { GivesValue (λ s. s.now) result (as_str (view value.now)) }
{
    match value.as_str() {
        Some(text) => Ok(text),
        None => Err(FieldError::Refused),
    }
}

fn texts<'a>(alloc: Global, listed: &'a Array) -> Result<Vec<&'a str>, FieldError>
    ensures { GivesValue (λ v. map (λ s. s.now) v.items) result (meaning.each as_str (array_view listed.now)) }
{
    let mut texts = Vec::new(alloc);
    for value in listed {
        let text = text_of(value)?;
        texts.push(text)?;
    }
    Ok(texts)
}

/// The texts of the anchors, of which there are 1 to 64.
#[tactic(auto, unfolding(crate::specs::Fields::anchor_texts))]
pub(crate) fn anchor_texts(alloc: Global, table: &Table) -> Result<Vec<&str>, FieldError>
    ensures value { GivesValue (λ v. map (λ s. s.now) v.items) result (meaning.anchor_texts (table_view table.now)) }
    ensures some { IfOk result (λ v. 1 ≤ vec_len v) }
    ensures few { IfOk result (λ v. vec_len v ≤ 64) }
{
    let listed = list_at("anchors", table)?;
    let texts = texts(alloc, listed)?;
    if 1 <= texts.len() && texts.len() <= 64 {
        Ok(texts)
    } else {
        Err(FieldError::Refused)
    }
}

fn uri_of(alloc: Global, value: &Value) -> Result<String, FieldError>
    ensures { GivesValue string_bytes result (meaning.uri_in (view value.now)) }
{
    let text = text_of(value)?;
    if text.is_empty() {
        return Err(FieldError::Refused);
    }
    Ok(String::from_str(alloc, text)?)
}

/// Copies of texts, none of which is empty.
pub(crate) fn uris(alloc: Global, listed: &Array) -> Result<Vec<String>, FieldError>
    ensures { GivesValue (λ v. map string_bytes v.items) result (meaning.each meaning.uri_in (array_view listed.now)) }
{
    let mut uris = Vec::new(alloc);
    for value in listed {
        let uri = uri_of(alloc, value)?;
        uris.push(uri)?;
    }
    Ok(uris)
}
