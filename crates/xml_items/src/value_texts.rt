// Attribute values: their characters, one after another, over the text that stands in quotes.
ghost use Rattle.std.specs.Prelude.{◌≡◌, ◌∷◌, ◌<◌, ◌≤◌, ◌&&◌, [], length, is_some, if◌then◌else◌, IsTrue, IfSome, IsSome, MatchOption, nat_le, encode_utf8_all};
ghost use Rattle.std.specs.Char.{encode_utf8};
ghost use Rattle.std.specs.Str.{chars, IsUtf8};
ghost use Rattle.document_model.specs.Characters.{is_empty, is_white, ◌is◌};
ghost use Rattle.document_model.specs.Items.{value_of};
ghost use Rattle.xml_items.specs.Found.{value_in, IsValueText};
ghost use Rattle.xml_items.specs.Values.{Begins};

use crate::classes::{Class, first, front, has};
use crate::references::referred;
use crate::texts::same;

// The first character of a value, and the text of what is behind it.
pub fn first_of_value(text: &str) -> Option<(u32, &str)>
    requires { IsValueText text.now }
    ensures first { MatchOption result (value_in (chars text.now) ≡ []) (λ r. Begins (chars text.now) r.0 (chars r.1.now)) }
    ensures shorter { IfSome result (λ r. length r.1.now < length text.now) }
    ensures utf8 { IfSome result (λ r. IsUtf8 r.1.now) }
{
    match first(text) {
        Some((c, behind)) => {
            if c == '&' {
                behind_reference(behind)
            } else if c == '\r' {
                Some((0x20, behind_line_feed(behind)))
            } else {
                Some((read_as(c), behind))
            }
        }
        None => None,
    }
}

// The character of a reference, and what is behind it, where its `&` stands before.
fn behind_reference(behind: &str) -> Option<(u32, &str)>
    requires { IsTrue (is_some (value_of (0x26 ∷ chars behind.now))) }
    ensures some { IsSome result }
    ensures first { IfSome result (λ r. Begins (0x26 ∷ chars behind.now) r.0 (chars r.1.now)) }
    ensures shorter { IfSome result (λ r. length r.1.now ≤ length behind.now) }
    ensures utf8 { IfSome result (λ r. IsUtf8 r.1.now) }
{
    let (name, end) = front(behind, Class::Except(';'));
    let (_, rest) = first(end)?;
    let c = referred(name)?;
    Some((c, rest))
}

// What is behind a line end, where its carriage return stands before.
fn behind_line_feed(behind: &str) -> &str
    requires { IsTrue (is_some (value_of (0xD ∷ chars behind.now))) }
    ensures first { Begins (0xD ∷ chars behind.now) 0x20 (chars result.now) }
    ensures shorter { length result.now ≤ length behind.now }
{
    match first(behind) {
        Some((c, rest)) => { if c == '\n' { rest } else { behind } }
        None => behind,
    }
}

// White space is read as a space.
fn read_as(c: char) -> u32
    ensures { result ≡ (if is_white c then 0x20 else c) }
{
    if has(Class::White, c) { 0x20 } else { c as u32 }
}

// Whether two texts spell the same value.
pub fn same_values(a: &str, b: &str) -> bool
    requires first { IsValueText a.now }
    requires second { IsValueText b.now }
    ensures { result ≡ (value_in (chars a.now) is value_in (chars b.now)) }
{
    if same(a, b) {
        return true;
    }
    let mut x = a;
    let mut y = b;
    'characters: loop {
        match first_of_value(x) {
            Some((c, behind)) => match first_of_value(y) {
                Some((d, further)) => {
                    if c != d {
                        return false;
                    }
                    x = behind;
                    y = further;
                }
                None => return false,
            },
            None => return first_of_value(y).is_none(),
        }
    }
}

// How many bytes a character has in UTF-8.
fn encoded_len(c: u32) -> usize
    ensures count { result ≡ length (encode_utf8 c) }
    ensures bound { result ≤ 4 }
{
    match c {
        0..=0x7F => 1,
        0x80..=0x7FF => 2,
        0x800..=0xFFFF => 3,
        _ => 4,
    }
}

// Whether a value has at most so many bytes in UTF-8.
pub fn value_fits(text: &str, most: usize) -> bool
    requires { IsValueText text.now }
    ensures { result ≡ nat_le (length (encode_utf8_all (value_in (chars text.now)))) most }
{
    let mut rest = text;
    let mut left = most;
    'characters: loop {
        match first_of_value(rest) {
            Some((c, behind)) => {
                let len = encoded_len(c);
                if left < len {
                    return false;
                }
                left -= len;
                rest = behind;
            }
            None => return true,
        }
    }
}

// Whether a value has no character.
pub fn is_empty_value(text: &str) -> bool
    requires { IsValueText text.now }
    ensures { result ≡ is_empty (value_in (chars text.now)) }
{
    first_of_value(text).is_none()
}
