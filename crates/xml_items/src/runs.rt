// Runs of characters that stand for themselves.
ghost use Rattle.std.specs.Prelude.{◌≡◌, ◌≤◌, ◌+◌, true, length, take, drop};
ghost use Rattle.std.specs.Str.{chars, IsUtf8};
ghost use Rattle.std.specs.List.{list_all};
ghost use Rattle.document_model.specs.Characters.{span};
ghost use Rattle.xml_items.specs.Runs.{is_common, is_ordinary, is_text};
ghost use Rattle.httparse.specs.Pieces.{AllPassBetween};

use crate::classes::{Class, all};
use crate::lanes::{LANES, common_lanes, ordinary_lanes, wide_lanes};
use crate::texts::utf8_text;

// Of each byte: 1 where it is a character that stands for itself.
static ORDINARY: [u8; 256] = [
    0, 0, 0, 0, 0, 0, 0, 0, 0, 1, 1, 0, 0, 0, 0, 0, 0, 0, 0, 0, 0, 0, 0, 0, 0, 0, 0, 0, 0, 0, 0, 0,
    1, 1, 1, 1, 1, 1, 0, 1, 1, 1, 1, 1, 1, 1, 1, 1, 1, 1, 1, 1, 1, 1, 1, 1, 1, 1, 1, 1, 0, 1, 0, 1,
    1, 1, 1, 1, 1, 1, 1, 1, 1, 1, 1, 1, 1, 1, 1, 1, 1, 1, 1, 1, 1, 1, 1, 1, 1, 1, 1, 1, 1, 0, 1, 1,
    1, 1, 1, 1, 1, 1, 1, 1, 1, 1, 1, 1, 1, 1, 1, 1, 1, 1, 1, 1, 1, 1, 1, 1, 1, 1, 1, 1, 1, 1, 1, 0,
    0, 0, 0, 0, 0, 0, 0, 0, 0, 0, 0, 0, 0, 0, 0, 0, 0, 0, 0, 0, 0, 0, 0, 0, 0, 0, 0, 0, 0, 0, 0, 0,
    0, 0, 0, 0, 0, 0, 0, 0, 0, 0, 0, 0, 0, 0, 0, 0, 0, 0, 0, 0, 0, 0, 0, 0, 0, 0, 0, 0, 0, 0, 0, 0,
    0, 0, 0, 0, 0, 0, 0, 0, 0, 0, 0, 0, 0, 0, 0, 0, 0, 0, 0, 0, 0, 0, 0, 0, 0, 0, 0, 0, 0, 0, 0, 0,
    0, 0, 0, 0, 0, 0, 0, 0, 0, 0, 0, 0, 0, 0, 0, 0, 0, 0, 0, 0, 0, 0, 0, 0, 0, 0, 0, 0, 0, 0, 0, 0,
];

// Whether a byte is a character that stands for itself wherever a text goes on.
#[inline(always)]
pub(crate) fn is_ordinary(byte: u8) -> bool
    ensures { result ≡ is_ordinary byte }
{
    ORDINARY[byte as usize] > 0
}

/// How many such characters stand in a row at a place.
pub fn ordinary_run(bytes: &[u8], at: usize) -> usize
    requires { at ≤ length bytes.now }
    ensures run { result ≡ length (span is_ordinary (drop at bytes.now)).0 }
    ensures bound { at + result ≤ length bytes.now }
{
    let mut end = ordinary_front(bytes, at);
    'run: while end < bytes.len() && is_ordinary(bytes[end]) {
        end += 1;
    }
    end - at
}

// How far such characters stand in a row at a place, as far as sixteen bytes are known at once.
#[inline(always)]
fn ordinary_front(bytes: &[u8], at: usize) -> usize
    requires { at ≤ length bytes.now }
    ensures order { at ≤ result }
    ensures bound { result ≤ length bytes.now }
    ensures run { at + length (span is_ordinary (drop at bytes.now)).0 ≡ result + length (span is_ordinary (drop result bytes.now)).0 }
{
    let mut end = at;
    'by_lanes: while bytes.len() - end >= LANES {
        let run = ordinary_lanes(bytes, end);
        if run < LANES {
            return end + run;
        }
        end += LANES;
    }
    end
}

/// Whether all bytes are such characters.
pub fn are_ordinary(bytes: &[u8]) -> bool
    ensures { result ≡ list_all is_ordinary bytes.now }
{
    bytes.iter().all(|byte| is_ordinary(*byte))
}

// The most bytes whose characters are tested at once.
const MOST_AT_ONCE: usize = 4096;

/// How many bytes at a place are characters that stand for themselves, those past ASCII too. Such a character may stand behind them.
pub fn text_run(bytes: &[u8], at: usize) -> usize
    requires { at ≤ length bytes.now }
    ensures bound { at + result ≤ length bytes.now }
    ensures utf8 { IsUtf8 (take result (drop at bytes.now)) }
    ensures text { list_all is_text (chars (take result (drop at bytes.now))) ≡ true }
{
    let run = ordinary_run(bytes, at);
    if run > 0 { run } else { wide_run(bytes, at) }
}

// The same, where they are tested by their characters.
fn wide_run(bytes: &[u8], at: usize) -> usize
    requires { at ≤ length bytes.now }
    ensures bound { at + result ≤ length bytes.now }
    ensures utf8 { IsUtf8 (take result (drop at bytes.now)) }
    ensures text { list_all is_text (chars (take result (drop at bytes.now))) ≡ true }
{
    if at < bytes.len() && bytes[at] >= 0x80 {
        let end = wide_end(bytes, at);
        match utf8_text(&bytes[at..end]) {
            Some(text) => {
                if are_text(text) {
                    return end - at;
                }
            }
            None => {}
        }
    }
    0
}

// Whether characters all stand for themselves.
fn are_text(text: &str) -> bool
    ensures { result ≡ true → list_all is_text (chars text.now) ≡ true }
{
    are_common(text.as_bytes()) || all(text, Class::InText)
}

// Whether all bytes are common in a text.
fn are_common(bytes: &[u8]) -> bool
    ensures { result ≡ true → list_all is_common bytes.now ≡ true }
{
    let mut at = common_front(bytes);
    'rest: while at < bytes.len() {
        if !is_common(bytes[at]) {
            return false;
        }
        at += 1;
    }
    true
}

// How many bytes at the front are, as far as sixteen are known at once.
fn common_front(bytes: &[u8]) -> usize
    ensures bound { result ≤ length bytes.now }
    ensures pass { AllPassBetween is_common bytes.now 0 result }
{
    let mut at = 0;
    'by_lanes: while bytes.len() - at >= LANES {
        let run = common_lanes(bytes, at);
        if run < LANES {
            return at + run;
        }
        at += LANES;
    }
    at
}

fn is_common(byte: u8) -> bool
    ensures { result ≡ is_common byte }
{
    (is_ordinary(byte) || byte >= 0x80) && byte != 0xEF
}

// A place up to which all bytes may be parts of such characters.
fn wide_end(bytes: &[u8], at: usize) -> usize
    requires { at ≤ length bytes.now }
    ensures order { at ≤ result }
    ensures bound { result ≤ length bytes.now }
{
    let most = farthest(bytes, at);
    for end in wide_front(bytes, at, most)..most {
        if bytes[end] < 0x80 && !is_ordinary(bytes[end]) {
            return end;
        }
    }
    most
}

// How far is looked at once: to no place inside a character.
fn farthest(bytes: &[u8], at: usize) -> usize
    requires { at ≤ length bytes.now }
    ensures order { at ≤ result }
    ensures bound { result ≤ length bytes.now }
{
    if bytes.len() - at <= MOST_AT_ONCE {
        return bytes.len();
    }
    let mut most = at + MOST_AT_ONCE;
    'within: while most > at && matches!(bytes[most], 0x80..=0xBF) {
        most -= 1;
    }
    most
}

// The same as `wide_end`, as far as sixteen bytes are known at once.
fn wide_front(bytes: &[u8], at: usize, most: usize) -> usize
    requires order { at ≤ most }
    requires bound { most ≤ length bytes.now }
    ensures order { at ≤ result }
    ensures bound { result ≤ most }
{
    let mut start = at;
    'by_lanes: while most - start >= LANES {
        let run = wide_lanes(bytes, start);
        if run < LANES {
            return start + run;
        }
        start += LANES;
    }
    start
}
