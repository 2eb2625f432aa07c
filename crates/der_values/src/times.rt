//! Times as seconds since 1970.

ghost use Rattle.std.specs.Prelude.{◌≡◌, ◌+◌, ◌-◌, ◌*◌, ◌<◌, ◌≤◌, ◌≤ℤ◌, ◌^◌, ◌↔◌, IfSome, IsSome, IsTrue, pos, length};
ghost use Rattle.std.specs.List.{list_all, list_any};
ghost use Rattle.der_values.specs.Times.{digits_from, number_at, is_real, seconds_to, real_seconds, moment_at, utc_time, utc_parts, rounding, fraction, is_digit, is_above_zero, is_z, IsInYears, generalized_time, generalized_parts, seconds_of, plain_seconds_of};
ghost use Rattle.der_values.specs.View.{view, seen};

use crate::tlv::Tlv;
use jiff::civil::DateTime;

/// The last second of the year 9999, after which GeneralizedTime has no text.
const LAST_SECOND: i64 = 253_402_300_799;

/// A date and a time of day, as digits spell them.
#[derive(Clone, Copy, Debug, PartialEq, Eq)]
pub(crate) struct Moment {
    year: u16,
    month: u8,
    day: u8,
    hour: u8,
    minute: u8,
    second: u8,
}

// What at most four digits spell.
fn digits(text: &[u8]) -> Option<u16>
    requires { length text.now ≤ 4 }
    ensures value { result ≡ digits_from 0 text.now }
    ensures small { IfSome result (λ n. n < 10 ^ length text.now) }
{
    let mut n: u16 = 0;
    for byte in text {
        if *byte < 48 || 57 < *byte {
            return None;
        }
        n = n * 10 + (*byte - 48) as u16;
    }
    Some(n)
}

fn year_at(place: usize, count: usize, text: &[u8]) -> Option<u16>
    requires few { count ≤ 4 }
    requires within { place + count ≤ length text.now }
    ensures value { result ≡ number_at place count text.now }
    ensures small { IfSome result (λ n. n < 10 ^ count) }
{
    digits(&text[place..][..count])
}

fn two_at(place: usize, text: &[u8]) -> Option<u8>
    requires within { place + 2 ≤ length text.now }
    ensures value { result ≡ number_at place 2 text.now }
    ensures small { IfSome result (λ n. n ≤ 99) }
{
    let n = year_at(place, 2, text)?;
    Some(n as u8)
}

// The calendar is jiff's: it refuses what is no real date or time.
fn civil_seconds(m: &Moment) -> Option<i64>
    requires year { m.now.year ≤ 9999 }
    requires day { (m.now.month ≤ 99) × (m.now.day ≤ 99) }
    requires time { (m.now.hour ≤ 99) × (m.now.minute ≤ 99) × (m.now.second ≤ 99) }
    ensures found { IsSome result ↔ IsTrue (is_real (seen m.now)) }
    ensures value { IfSome result (λ s. s ≡ seconds_to (seen m.now)) }
    ensures range { IfSome result IsInYears }
{
    match DateTime::new(
        m.year as i16,
        m.month as i8,
        m.day as i8,
        m.hour as i8,
        m.minute as i8,
        m.second as i8,
        0,
    ) {
        Ok(moment) => Some(moment.to_plain().to_second()),
        Err(_) => None,
    }
}

#[tactic(auto, unfolding(crate::specs::Times::moment_at))]
fn seconds_at(year: u16, place: usize, text: &[u8]) -> Option<i64>
    requires year { year ≤ 9999 }
    requires within { place + 10 ≤ length text.now }
    ensures value { result ≡ moment_at year place text.now }
    ensures range { IfSome result IsInYears }
{
    let month = two_at(place, text)?;
    let day = two_at(place + 2, text)?;
    let hour = two_at(place + 4, text)?;
    let minute = two_at(place + 6, text)?;
    let second = two_at(place + 8, text)?;
    let moment = Moment {
        year,
        month,
        day,
        hour,
        minute,
        second,
    };
    civil_seconds(&moment)
}

fn ends(text: &[u8]) -> bool
    ensures { result ≡ is_z text.now }
{
    matches!(text, [b'Z'])
}

#[tactic(auto, unfolding(crate::specs::Times::utc_time, crate::specs::Times::utc_parts))]
fn utc(text: &[u8]) -> Option<i64>
    ensures value { result ≡ utc_time text.now }
    ensures range { IfSome result IsInYears }
{
    if text.len() != 13 {
        return None;
    }
    let year = year_at(0, 2, text)?;
    let year = if year < 50 { 2000 + year } else { 1900 + year };
    let n = seconds_at(year, 2, text)?;
    if ends(&text[12..]) { Some(n) } else { None }
}

fn are_digits(text: &[u8]) -> bool
    ensures { result ≡ list_all is_digit text.now }
{
    text.iter().all(|b| 48 <= *b && *b <= 57)
}

fn is_above_0(digits: &[u8]) -> bool
    ensures { result ≡ list_any is_above_zero digits.now }
{
    digits.iter().any(|b| *b != 48)
}

#[tactic(auto, unfolding(crate::specs::Times::fraction))]
fn fraction_of(digits: &[u8], behind: &[u8]) -> Option<i64>
    ensures value { result ≡ fraction digits.now behind.now }
    ensures most { IfSome result (λ n. n ≤ℤ pos 1) }
    ensures least { IfSome result (λ n. pos 0 ≤ℤ n) }
{
    if !ends(behind) || digits.is_empty() {
        return None;
    }
    if !are_digits(digits) {
        return None;
    }
    if is_above_0(digits) { Some(1) } else { Some(0) }
}

#[tactic(auto, unfolding(crate::specs::Times::rounding, crate::specs::Times::fraction))]
fn rounded(text: &[u8]) -> Option<i64>
    ensures value { result ≡ rounding text.now }
    ensures most { IfSome result (λ n. n ≤ℤ pos 1) }
    ensures least { IfSome result (λ n. pos 0 ≤ℤ n) }
{
    match text {
        [] => None,
        [b'.'] => None,
        [b'.', rest @ ..] => {
            let (digits, behind) = rest.split_at(rest.len() - 1);
            fraction_of(digits, behind)
        }
        [_, ..] => { if ends(text) { Some(0) } else { None } }
    }
}

#[tactic(auto, unfolding(crate::specs::Times::generalized_time, crate::specs::Times::generalized_parts))]
fn generalized(text: &[u8]) -> Option<i64>
    ensures value { result ≡ generalized_time text.now }
    ensures range { IfSome result IsInYears }
{
    if text.len() < 15 {
        return None;
    }
    let year = year_at(0, 4, text)?;
    let n = seconds_at(year, 4, text)?;
    let more = rounded(&text[14..])?;
    let rounded_up = n + more;
    if rounded_up <= LAST_SECOND {
        Some(rounded_up)
    } else {
        None
    }
}

/// The seconds since 1970 of a UTCTime or a GeneralizedTime in DER (X.690, 11.7 and 11.8).
///
/// The years are 0000 to 9999. A fraction is rounded up; a reader that allows none refuses it itself. `None` where the element is neither, its text isn't of
/// the form, it names no real date and time, or, rounded up, it lies after the year 9999.
#[tactic(auto, unfolding(crate::specs::Times::seconds_of))]
pub fn seconds(tlv: &Tlv<'_>) -> Option<i64>
    ensures value { result ≡ seconds_of (view tlv.now) }
    ensures range { IfSome result IsInYears }
{
    match tlv.tag {
        23 => utc(tlv.content),
        24 => generalized(tlv.content),
        _ => None,
    }
}

/// The same of a time that may have no fraction (RFC 5280, 4.1.2.5).
#[tactic(auto, unfolding(crate::specs::Times::plain_seconds_of))]
pub fn plain_seconds(tlv: &Tlv<'_>) -> Option<i64>
    ensures value { result ≡ plain_seconds_of (view tlv.now) }
    ensures range { IfSome result IsInYears }
{
    if tlv.tag == 24 && tlv.content.len() != 15 {
        return None;
    }
    seconds(tlv)
}
