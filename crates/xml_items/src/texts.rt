// Texts between others, and texts in texts.
ghost use Rattle.std.specs.Prelude.{false, ◌≡◌, ◌++◌, ◌<◌, ◌≤◌, ◌-◌, take, drop, nat_eq, nat_lt, Some, None, MatchOption, IsTrue, option_map, map, length, IfSome, ℕ, List};
ghost use Rattle.std.specs.List.{list_all, starts_with, ends_with};
ghost use Rattle.std.specs.Str.{chars, str_to_ascii_lowercase, IsUtf8};
ghost use Rattle.document_model.specs.Characters.{characters, is_char, between, contains, is_empty, ◌is◌};
ghost use Rattle.document_model.specs.Items.{without_space_behind, lower_case};
ghost use Rattle.xml_items.specs.Texts.{is_ascii, is_plain, HasEnd};

use crate::classes::{Class, all, has};

// From how many bytes on they are tested sixty-four at once.
const LONG: usize = 64;

/// The text that bytes spell.
pub fn utf8_text(bytes: &[u8]) -> Option<&str>
    ensures { MatchOption result (IsUtf8 bytes.now → ⊥) (λ text. (text.now ≡ bytes.now) × IsUtf8 bytes.now) }
{
    if bytes.len() < LONG {
        match str::from_utf8(bytes) {
            Ok(text) => Some(text),
            Err(_) => None,
        }
    } else {
        match simdutf8::compat::from_utf8(bytes) {
            Ok(text) => Some(text),
            Err(_) => None,
        }
    }
}

/// The text that a part of bytes spells.
pub fn utf8_part(bytes: &[u8], start: usize, end: usize) -> &str
    requires order { start ≤ end }
    requires within { end ≤ length bytes.now }
    requires utf8 { IsUtf8 (take (end - start) (drop start bytes.now)) }
    ensures { result.now ≡ take (end - start) (drop start bytes.now) }
{
    match utf8_text(&bytes[start..end]) {
        Some(text) => text,
        None => unreachable!(),
    }
}

// The text that bytes spell, where all its characters may stand in a document.
pub fn characters(bytes: &[u8]) -> Option<&str>
    ensures { MatchOption result (characters bytes.now ≡ None) (λ text. (text.now ≡ bytes.now) × (characters bytes.now ≡ Some (chars text.now))) }
{
    match str::from_utf8(bytes) {
        Ok(text) => {
            if are_characters(text) {
                Some(text)
            } else {
                None
            }
        }
        Err(_) => None,
    }
}

// Whether all characters may stand in a document.
fn are_characters(text: &str) -> bool
    ensures { result ≡ list_all is_char (chars text.now) }
{
    are_plain(text.as_bytes()) || all(text, Class::Char)
}

// Whether all bytes are ASCII characters that may: most texts are made of these alone.
fn are_plain(bytes: &[u8]) -> bool
    ensures { result ≡ list_all is_plain bytes.now }
{
    bytes.iter().all(|byte| is_plain(*byte))
}

pub(crate) fn is_plain(byte: u8) -> bool
    ensures { result ≡ is_plain byte }
{
    (byte >= 0x20 && byte <= 0x7E) || matches!(byte, 0x9..=0xA | 0xD)
}

fn starts(text: &str, opening: &str) -> bool
    ensures { result ≡ starts_with nat_eq text.now opening.now }
{
    text.as_bytes().starts_with(opening.as_bytes())
}

fn ends(text: &str, closing: &str) -> bool
    ensures { result ≡ ends_with nat_eq text.now closing.now }
{
    text.as_bytes().ends_with(closing.as_bytes())
}

// What is behind an opening text.
fn behind<'a>(text: &'a str, opening: &str) -> Option<&'a str>
    requires { IsTrue (is_ascii opening.now) }
    ensures { MatchOption result (starts_with nat_eq (chars text.now) opening.now ≡ false) (λ rest. text.now ≡ opening.now ++ rest.now) }
{
    if starts(text, opening) {
        let (_, rest) = text.split_at(opening.len());
        Some(rest)
    } else {
        None
    }
}

// What is before a closing text.
fn before<'a>(text: &'a str, closing: &str) -> Option<&'a str>
    requires { IsTrue (is_ascii closing.now) }
    ensures { MatchOption result (¬ (HasEnd text.now closing.now)) (λ front. text.now ≡ front.now ++ closing.now) }
{
    if ends(text, closing) {
        let (front, _) = text.split_at(text.len() - closing.len());
        Some(front)
    } else {
        None
    }
}

// What stands between an opening and a closing text.
pub fn between<'a>(text: &'a str, opening: &str, closing: &str) -> Option<&'a str>
    requires opening { IsTrue (is_ascii opening.now) }
    requires closing { IsTrue (is_ascii closing.now) }
    ensures inside { between opening.now closing.now (chars text.now) ≡ option_map (λ inside. chars inside.now) result }
    ensures placed { IfSome result (λ inside. text.now ≡ opening.now ++ (inside.now ++ closing.now)) }
{
    match behind(text, opening) {
        Some(rest) => before(rest, closing),
        None => None,
    }
}

// Whether a part stands somewhere in a text.
pub fn contains(text: &str, part: &str) -> bool
    requires ascii { IsTrue (is_ascii part.now) }
    requires some { 0 < length part.now }
    ensures { result ≡ contains (chars text.now) part.now }
{
    let mut rest = text;
    while !starts(rest, part) {
        let mut next = rest.chars();
        match next.next() {
            Some(_) => rest = next.as_str(),
            None => return false,
        }
    }
    true
}

// Whether a text has no character.
pub fn is_empty(text: &str) -> bool
    ensures { result ≡ is_empty (chars text.now) }
{
    text.is_empty()
}

// Whether a text is this one.
pub fn is(text: &str, other: &str) -> bool
    requires { IsTrue (is_ascii other.now) }
    ensures { result ≡ (chars text.now is other.now) }
{
    text.as_bytes() == other.as_bytes()
}

// Whether two texts are the same.
pub fn same(a: &str, b: &str) -> bool
    ensures { result ≡ (chars a.now is chars b.now) }
{
    a.as_bytes() == b.as_bytes()
}

// Whether a text is this one in any case of letters.
pub fn is_lowered(text: &str, other: &str) -> bool
    requires ascii { IsTrue (is_ascii other.now) }
    requires lowered { str_to_ascii_lowercase other.now ≡ other.now }
    ensures { result ≡ (map lower_case (chars text.now) is other.now) }
{
    text.eq_ignore_ascii_case(other)
}

// The text without the white space at its end.
pub fn without_space_behind(text: &str) -> &str
    ensures front { without_space_behind (chars text.now) ≡ chars result.now }
    ensures placed { (space : List ℕ) × (text.now ≡ result.now ++ space) }
{
    let mut front = text;
    loop {
        let mut rest = front.chars();
        let last = rest.next_back();
        let shorter = rest.as_str();
        match last {
            Some(c) if has(Class::White, c) => front = shorter,
            _ => return front,
        }
    }
}
