//! Simple kinds: X.690, 8.2, 8.3, 8.6 and 8.19.

ghost use Rattle.std.specs.Prelude.{◌≡◌, ◌<◌, ◌^◌, IfSome, IsTrue, true, false, is_some};
ghost use Rattle.std.specs.Option.{option_copied};
ghost use Rattle.der_values.specs.Kinds.{integer_of, oid_of, bit_string_of, is_integer, is_oid, are_parts, bits, is_boolean, has_unused_bits, is_count, is_thousandth, count_of};
ghost use Rattle.der_values.specs.View.{view};

use crate::length::number;
use crate::tlv::Tlv;

pub(crate) fn is_minimal(content: &[u8]) -> bool
    ensures { result ≡ is_integer content.now }
{
    match content {
        [] => false,
        [_] => true,
        [0, second, ..] => *second >= 128,
        [255, second, ..] => *second < 128,
        [_, _, ..] => true,
    }
}

/// The content of an INTEGER; `None` where the element is none, or its content is empty or not minimal (X.690, 8.3).
#[tactic(auto, unfolding(crate::specs::Kinds::integer_of))]
pub fn integer<'a>(tlv: &Tlv<'a>) -> Option<&'a [u8]>
    ensures { option_copied result ≡ integer_of (view tlv.now) }
{
    if tlv.tag == 2 && is_minimal(tlv.content) {
        Some(tlv.content)
    } else {
        None
    }
}

pub(crate) fn is_object_identifier(content: &[u8]) -> bool
    ensures { result ≡ is_oid content.now }
{
    let mut inside = false;
    for byte in content {
        if !inside && *byte == 128 {
            return false;
        }
        inside = *byte >= 128;
    }
    !content.is_empty() && !inside
}

/// The content of an OBJECT IDENTIFIER; `None` where the element is none, or a part is cut or not minimal (X.690, 8.19).
#[tactic(auto, unfolding(crate::specs::Kinds::oid_of))]
pub fn oid<'a>(tlv: &Tlv<'a>) -> Option<&'a [u8]>
    ensures { option_copied result ≡ oid_of (view tlv.now) }
{
    if tlv.tag == 6 && is_object_identifier(tlv.content) {
        Some(tlv.content)
    } else {
        None
    }
}

/// The bytes of a BIT STRING; `None` where the element is none, or its bits don't fill the last byte (X.690, 8.6).
#[tactic(auto, unfolding(crate::specs::Kinds::bit_string_of))]
pub fn bit_string<'a>(tlv: &Tlv<'a>) -> Option<&'a [u8]>
    ensures { option_copied result ≡ bit_string_of (view tlv.now) }
{
    if tlv.tag != 3 {
        return None;
    }
    match tlv.content {
        [0, bytes @ ..] => Some(bytes),
        _ => None,
    }
}

pub(crate) fn has_whole_bytes(content: &[u8]) -> bool
    ensures { result ≡ is_some (bits content.now) }
{
    matches!(content, [0, ..])
}

pub(crate) fn is_truth(content: &[u8]) -> bool
    ensures { result ≡ is_boolean content.now }
{
    matches!(content, [0 | 255])
}

pub(crate) fn may_have_unused_bits(content: &[u8]) -> bool
    ensures { result ≡ has_unused_bits content.now }
{
    match content {
        [] => false,
        [unused] => *unused == 0,
        [unused, ..] => *unused < 8,
    }
}

pub(crate) fn is_small(content: &[u8]) -> bool
    ensures { result ≡ is_count content.now }
{
    is_minimal(content) && content[0] < 128 && content.len() <= 4
}

pub(crate) fn is_part_of_thousand(content: &[u8]) -> bool
    ensures { result ≡ is_thousandth content.now }
{
    match content {
        [b] => *b != 0 && *b < 128,
        [b, c] => is_minimal(content) && (*b as u32) * 256 + (*c as u32) < 1000,
        _ => false,
    }
}

/// The value of an INTEGER's content that is from 0 to 2^31 - 1; else `None`.
#[tactic(auto, using(crate::proofs::Numbers::below_2_32))]
pub fn count(content: &[u8]) -> Option<u32>
    ensures value { result ≡ count_of content.now }
    ensures small { IfSome result (λ n. n < 2 ^ 31) }
{
    if is_small(content) {
        Some(number(content) as u32)
    } else {
        None
    }
}
