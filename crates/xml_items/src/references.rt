// References.
ghost use Rattle.std.specs.Prelude.{◌≡◌, ◌≤◌, ◌<◌, ℕ, List, [], codes, min, reverse, option_and_then};
ghost use Rattle.std.specs.Str.{chars};
ghost use Rattle.document_model.specs.Characters.{in_ranges, between};
ghost use Rattle.document_model.specs.Items.{digit, number, numbered, referred, decimal_digits, hexadecimal_digits};
ghost use Rattle.xml_items.specs.Classes.{passes};

use crate::classes::{Class, all, is_char};
use crate::texts::{between, is};

fn digit(c: char) -> u32
    ensures value { result ≡ digit c }
    ensures bound { result ≤ 0x10FFFF }
{
    let n = c as u32;
    if n <= 0x39 {
        n.saturating_sub(0x30)
    } else if n <= 0x46 {
        n.saturating_sub(0x37)
    } else {
        n.saturating_sub(0x57)
    }
}

// One above the largest number of a character.
const TOO_LARGE: u32 = 0x11_0000;

// The number that digits name, if it is less than this limit.
fn number(text: &str, base: u32) -> u32
    requires low { 0 < base }
    requires high { base ≤ 16 }
    ensures { result ≡ min (number base (reverse (chars text.now))) TOO_LARGE }
{
    let mut n = 0;
    let mut rest = text;
    loop {
        let mut digits = rest.chars();
        match digits.next() {
            Some(c) => {
                n = (n * base + digit(c)).min(TOO_LARGE);
                rest = digits.as_str();
            }
            None => return n,
        }
    }
}

// The character that digits name, where there are some and they name one.
fn numbered(text: &str, base: u32, digits: Class) -> Option<u32>
    requires low { 0 < base }
    requires high { base ≤ 16 }
    ensures { (rs : List (ℕ × ℕ)) → passes digits ≡ in_ranges rs → numbered base rs (chars text.now) ≡ result }
{
    let n = number(text, base);
    if text.is_empty() || !all(text, digits) || !is_char(n) {
        return None;
    }
    Some(n)
}

// What a reference stands for, by what stands between its `&` and its `;`.
pub fn referred(text: &str) -> Option<u32>
    ensures { referred (chars text.now) ≡ result }
{
    if is(text, "lt") {
        return Some(0x3C);
    }
    if is(text, "gt") {
        return Some(0x3E);
    }
    if is(text, "amp") {
        return Some(0x26);
    }
    if is(text, "apos") {
        return Some(0x27);
    }
    if is(text, "quot") {
        return Some(0x22);
    }
    match hexadecimal(text) {
        Some(n) => Some(n),
        None => decimal(text),
    }
}

fn hexadecimal(text: &str) -> Option<u32>
    ensures { option_and_then (numbered 16 hexadecimal_digits) (between (codes "#x") [] (chars text.now)) ≡ result }
{
    match between(text, "#x", "") {
        Some(digits) => numbered(digits, 16, Class::Hexadecimal),
        None => None,
    }
}

fn decimal(text: &str) -> Option<u32>
    ensures { option_and_then (numbered 10 decimal_digits) (between (codes "#") [] (chars text.now)) ≡ result }
{
    match between(text, "#", "") {
        Some(digits) => numbered(digits, 10, Class::Decimal),
        None => None,
    }
}
