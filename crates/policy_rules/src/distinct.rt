//! That no kind and no URI stands twice.

ghost use Rattle.std.specs.Prelude.{◌≡◌, ◌∷◌, List, ℕ, [], map, not, string_bytes, IfOk, OnOk};
ghost use Rattle.algorithms.specs.SignatureKind as signatures;
ghost use Rattle.algorithms.specs.DigestKind as digest_names;
ghost use Rattle.policy_rules.specs.Faults.{Answers};
ghost use Rattle.policy_rules.specs.Rules.{are_new, is_among, uris_of};
ghost use Rattle.policy_rules.specs.Seen.{HasTexts, IsSeen};
ghost use Rattle.policy_rules.specs.View.{kind_view, digest_view};

use crate::entries::{DigestEntry, KindEntry};
use crate::fault::FieldError;
use std::alloc::Global;
use std::collections::BTreeSet;

// Puts the text to those that were seen; whether it is new.
fn see<'a>(seen: &mut BTreeSet<&'a str>, text: &'a str) -> Result<bool, FieldError>
    ensures new { (texts : List (List ℕ)) → HasTexts seen.old texts → Answers result (not (is_among text.now texts)) }
    ensures seen { (texts : List (List ℕ)) → HasTexts seen.old texts → OnOk result (HasTexts seen.new (text.now ∷ texts)) }
{
    Ok(seen.insert(text)?)
}

// Puts the texts to those that were seen; whether each is new.
fn see_all<'a>(seen: &mut BTreeSet<&'a str>, uris: &'a [String]) -> Result<bool, FieldError>
    ensures { (texts : List (List ℕ)) → (more : List (List ℕ)) → HasTexts seen.old texts → IsSeen seen.new result texts (map string_bytes uris.now) more }
{
    for uri in uris {
        if !see(seen, uri.as_str())? {
            return Ok(false);
        }
    }
    Ok(true)
}

/// Whether no two entries name one kind of signatures.
pub(crate) fn are_kinds_new(alloc: Global, entries: &[KindEntry]) -> Result<bool, FieldError>
    ensures { Answers result (are_new [] (map (λ rule. signatures.word_of rule.kind) (map kind_view entries.now))) }
{
    let mut seen = BTreeSet::new(alloc);
    for entry in entries {
        if !see(&mut seen, entry.kind.word())? {
            return Ok(false);
        }
    }
    Ok(true)
}

/// Whether no URI stands twice in all entries.
pub(crate) fn are_uris_new(alloc: Global, entries: &[KindEntry]) -> Result<bool, FieldError>
    ensures { Answers result (are_new [] (uris_of (map kind_view entries.now))) }
{
    let mut seen = BTreeSet::new(alloc);
    for entry in entries {
        if !see_all(&mut seen, entry.uris.as_slice())? {
            return Ok(false);
        }
    }
    Ok(true)
}

/// Whether no two entries name one kind of digests.
pub(crate) fn are_digests_new(alloc: Global, entries: &[DigestEntry]) -> Result<bool, FieldError>
    ensures { Answers result (are_new [] (map (λ rule. digest_names.word_of rule.kind) (map digest_view entries.now))) }
{
    let mut seen = BTreeSet::new(alloc);
    for entry in entries {
        if !see(&mut seen, entry.kind.word())? {
            return Ok(false);
        }
    }
    Ok(true)
}
