//! The first word with which no pattern goes on.

ghost use Rattle.std.specs.Prelude.{◌≡◌, ◌+◌, ◌++◌, ◌<◌, ◌^◌, List, [], ◌∷◌, map, string_bytes, OnOk, IfOk, MatchOption, false};
ghost use Rattle.word_patterns.specs.Grammar.{FitsOne, IsFaultyWord, behind, behind_one, one_may_end, may_end, is_none, faulty_from};
ghost use Rattle.word_patterns.specs.Good.{AllGood, AreFew};
ghost use Rattle.word_patterns.specs.Patterns.{cursor_in, cursors_in, pattern_in, patterns_in};

use crate::patterns::{Part, is_of_one};
use std::alloc::Global;
use xa_io::OutOfMemory;

// What may stand behind the words so far: the parts that are left, and how many words of the first of them must and may come.
#[derive(Clone, Copy)]
struct Cursor<'g> {
    least: u32,
    most: u32,
    parts: &'g [Part<'g>],
}

// A pattern from its first part on.
fn cursor_at<'g>(parts: &'g [Part<'g>]) -> Cursor<'g>
    ensures { cursor_in result ≡ pattern_in parts.now }
{
    match parts {
        [part, ..] => Cursor {
            least: part.least,
            most: part.most,
            parts,
        },
        [] => Cursor {
            least: 0,
            most: 0,
            parts,
        },
    }
}

fn push<'g>(cursors: &mut Vec<Cursor<'g>>, cursor: Cursor<'g>) -> Result<(), OutOfMemory>
    ensures { OnOk result (cursors.new.items ≡ cursors.old.items ++ cursor.entry ∷ []) }
{
    match cursors.push(cursor) {
        Ok(()) => Ok(()),
        Err(_) => Err(OutOfMemory),
    }
}

// Appends what may stand behind a word that one pattern goes on with.
fn push_behind<'g>(
    cursors: &mut Vec<Cursor<'g>>,
    word: &str,
    from: Cursor<'g>,
) -> Result<(), OutOfMemory>
    ensures { OnOk result (cursors_in cursors.new.items ≡ cursors_in cursors.old.items ++ behind word.now (cursor_in from.entry)) }
{
    let mut cursor = from;
    'parts: loop {
        match cursor.parts {
            [part, others @ ..] => {
                if cursor.most > 0 && is_of_one(part.forms, word) {
                    let taken = Cursor {
                        least: cursor.least.saturating_sub(1),
                        most: cursor.most - 1,
                        parts: cursor.parts,
                    };
                    push(cursors, taken)?;
                }
                if cursor.least > 0 {
                    return Ok(());
                }
                cursor = cursor_at(others);
            }
            [] => return Ok(()),
        }
    }
}

// What may stand behind a word that one of the patterns goes on with.
fn behind_one<'g>(
    alloc: Global,
    word: &str,
    cursors: &[Cursor<'g>],
) -> Result<Vec<Cursor<'g>>, OutOfMemory>
    ensures { IfOk result (λ next. cursors_in next.items ≡ behind_one word.now (cursors_in cursors.now)) }
{
    let mut next = Vec::new(alloc);
    let mut rest = cursors;
    'cursors: loop {
        match rest {
            [cursor, others @ ..] => {
                push_behind(&mut next, word, *cursor)?;
                rest = others;
            }
            [] => return Ok(next),
        }
    }
}

// Whether no word need follow.
fn may_end(cursor: Cursor<'_>) -> bool
    ensures { result ≡ may_end (cursor_in cursor.entry) }
{
    let mut rest = cursor;
    'parts: loop {
        match rest.parts {
            [_, others @ ..] => {
                if rest.least > 0 {
                    return false;
                }
                rest = cursor_at(others);
            }
            [] => return true,
        }
    }
}

fn one_may_end(cursors: &[Cursor<'_>]) -> bool
    ensures { result ≡ one_may_end (cursors_in cursors.now) }
{
    let mut rest = cursors;
    'cursors: loop {
        match rest {
            [cursor, others @ ..] => {
                if may_end(*cursor) {
                    return true;
                }
                rest = others;
            }
            [] => return false,
        }
    }
}

// Whether nothing may stand there.
fn is_none(cursors: &Vec<Cursor<'_>>) -> bool
    ensures { result ≡ is_none (cursors_in cursors.now.items) }
{
    match cursors.as_slice() {
        [] => true,
        _ => false,
    }
}

// The patterns from their first parts on.
fn begin<'g>(alloc: Global, patterns: &[&'g [Part<'g>]]) -> Result<Vec<Cursor<'g>>, OutOfMemory>
    ensures { IfOk result (λ cursors. cursors_in cursors.items ≡ patterns_in patterns.now) }
{
    let mut cursors = Vec::new(alloc);
    let mut rest = patterns;
    'patterns: loop {
        match rest {
            [pattern, others @ ..] => {
                push(&mut cursors, cursor_at(*pattern))?;
                rest = others;
            }
            [] => return Ok(cursors),
        }
    }
}

// The number of the faulty word by the search, where the words are numbered from 1.
fn search<'g>(
    alloc: Global,
    patterns: &[&'g [Part<'g>]],
    words: &[String],
) -> Result<Option<u32>, OutOfMemory>
    requires { AreFew 1 (patterns_in patterns.now) }
    ensures { IfOk result (λ number. faulty_from 1 (patterns_in patterns.now) (map string_bytes words.now) ≡ number) }
{
    let mut cursors = begin(alloc, patterns)?;
    let mut number: u32 = 1;
    for word in words {
        let next = behind_one(alloc, word.as_str(), cursors.as_slice())?;
        if is_none(&next) {
            return Ok(Some(number));
        }
        cursors = next;
        number += 1;
    }
    if one_may_end(cursors.as_slice()) {
        return Ok(None);
    }
    Ok(Some(number))
}

/// The first word, by its number from 1, with which no pattern goes on; one more than there are words where they end too early;
/// none where they fit one of the patterns.
///
/// Some words can fit each of the patterns, and no pattern takes 2^32 words.
pub fn faulty_word<'g>(
    alloc: Global,
    patterns: &[&'g [Part<'g>]],
    words: &[String],
) -> Result<Option<u32>, OutOfMemory>
    requires some { is_none (patterns_in patterns.now) ≡ false }
    requires good { AllGood (patterns_in patterns.now) }
    requires few { AreFew 1 (patterns_in patterns.now) }
    ensures { IfOk result (λ number. MatchOption number
        (FitsOne (patterns_in patterns.now) (map string_bytes words.now))
        (λ at. IsFaultyWord (patterns_in patterns.now) (map string_bytes words.now) at)) }
{
    search(alloc, patterns, words)
}
