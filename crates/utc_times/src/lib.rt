//! Times as texts `YYYY-MM-DDThh:mm:ssZ`, a profile of RFC 3339: UTC, no fraction, seconds to 59, the years 0000 to 9999 of the Gregorian calendar.
#![tactic(auto)]

ghost use Rattle.std.specs.Prelude.{◌≡◌, ◌≤◌, ◌<◌, ◌+◌, ◌*◌, ℕ, length, IsTrue, Some, None, IfSome, IsSome, ◌↔◌, ℤ, pos, ◌+ℤ◌, ◌*ℤ◌};
ghost use Rattle.utc_times.specs.TimeText.{are_two, number_two, has_shape, is_real, seconds_of, time_of};

use jiff::civil::DateTime;

fn are_two(text: &[u8], at: usize) -> bool
    requires { at + 1 < length text.now }
    ensures { result ≡ are_two text.now at }
{
    text[at] >= b'0' && text[at] <= b'9' && text[at + 1] >= b'0' && text[at + 1] <= b'9'
}

fn has_shape(t: &[u8]) -> bool
    ensures { result ≡ has_shape t.now }
{
    t.len() == 20
        && are_two(t, 0)
        && are_two(t, 2)
        && t[4] == b'-'
        && are_two(t, 5)
        && t[7] == b'-'
        && are_two(t, 8)
        && t[10] == b'T'
        && are_two(t, 11)
        && t[13] == b':'
        && are_two(t, 14)
        && t[16] == b':'
        && are_two(t, 17)
        && t[19] == b'Z'
}

fn number_two(text: &[u8], at: usize) -> u8
    requires room { at + 1 < length text.now }
    requires digits { IsTrue (are_two text.now at) }
    ensures value { result ≡ number_two text.now at }
    ensures bound { result ≤ 99 }
{
    (text[at] - b'0') * 10 + (text[at + 1] - b'0')
}

/// The seconds of a date and a time, where these are real.
pub fn seconds(year: u16, month: u8, day: u8, hour: u8, minute: u8, second: u8) -> Option<i64>
    requires year { year ≤ 9999 }
    requires small { (month ≤ 99) × (day ≤ 99) × (hour ≤ 99) × (minute ≤ 99) × (second ≤ 99) }
    ensures found { IsSome result ↔ IsTrue (is_real year month day hour minute second) }
    ensures value { IfSome result (λ s. s ≡ seconds_of year month day hour minute second) }
{
    match DateTime::new(
        year as i16,
        month as i8,
        day as i8,
        hour as i8,
        minute as i8,
        second as i8,
        0,
    ) {
        Ok(dt) => Some(dt.to_plain().to_second()),
        Err(_) => None,
    }
}

/// The time that a text names.
pub fn read_time(text: &[u8]) -> Option<i64>
    ensures { result ≡ time_of text.now }
{
    if !has_shape(text) {
        return None;
    }
    let year = u16::from(number_two(text, 0)) * 100 + u16::from(number_two(text, 2));
    seconds(
        year,
        number_two(text, 5),
        number_two(text, 8),
        number_two(text, 11),
        number_two(text, 14),
        number_two(text, 17),
    )
}

ghost use Rattle.std.specs.Prelude.{◌≤ℤ◌, neg_ℤ, ◌-ℤ◌};
ghost use Rattle.utc_times.specs.TimeText.{time_list};
ghost use Rattle.jiff_core.specs.Calendar.{IsBetween};
ghost use Rattle.jiff_core.specs.Date.{epoch_day};

use jiff_core::civil::Date;

fn digits(year: u16, month: u8, day: u8, hour: u8, minute: u8, second: u8) -> [u8; 20]
    requires year { year ≤ 9999 }
    requires small { (month ≤ 99) × (day ≤ 99) × (hour ≤ 99) × (minute ≤ 99) × (second ≤ 99) }
    ensures { result ≡ time_list year month day hour minute second }
{
    [
        48 + (year / 1000) as u8,
        48 + (year / 100 % 10) as u8,
        48 + (year / 10 % 10) as u8,
        48 + (year % 10) as u8,
        b'-',
        48 + month / 10,
        48 + month % 10,
        b'-',
        48 + day / 10,
        48 + day % 10,
        b'T',
        48 + hour / 10,
        48 + hour % 10,
        b':',
        48 + minute / 10,
        48 + minute % 10,
        b':',
        48 + second / 10,
        48 + second % 10,
        b'Z',
    ]
}

/// The date of a day number.
fn date_of(day: i64) -> Date
    requires { IsBetween (neg_ℤ (pos 719_528)) (pos 2_932_896) day }
    ensures day { epoch_day result ≡ day }
    ensures year { pos 0 ≤ℤ result.year }
{
    match Date::from_unix_epoch_day(day) {
        Ok(date) => date,
        Err(_) => unreachable!(),
    }
}

/// The text of a time of the years 0000 to 9999.
pub fn time_text(seconds: i64) -> [u8; 20]
    requires { IsBetween (neg_ℤ (pos 62_167_219_200)) (pos 253_402_300_799) seconds }
    ensures { time_of result ≡ Some seconds }
{
    let count = (seconds + 62_167_219_200) as u64;
    let date = date_of((count / 86_400) as i64 - 719_528);
    let rest = (count % 86_400) as u32;
    digits(
        date.year as u16,
        date.month,
        date.day,
        (rest / 3600) as u8,
        (rest / 60 % 60) as u8,
        (rest % 60) as u8,
    )
}
