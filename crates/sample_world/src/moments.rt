//! Times, written as DER (RFC 5280, section 4.1.2.5; X.690, sections 11.7 and 11.8).

ghost use Rattle.std.specs.Prelude.{◌≡◌, ◌≤◌, ◌++◌, ◌≤ℤ◌, OnOk, pos, neg_ℤ};
ghost use Rattle.jiff_core.specs.Calendar.{IsBetween};
ghost use Rattle.jiff_core.specs.Date.{epoch_day};
ghost use Rattle.sample_world.specs.Moments.{moment_of, utc_text, generalized_text, generalized_time, time};

use jiff_core::civil::Date;
use xa_io::{Octs, OutOfMemory, put_tlv};

/// A date of the years 0 to 9999 and a time of day.
#[derive(Clone, Copy, Debug)]
pub struct Moment {
    pub year: u16,
    pub month: u8,
    pub day: u8,
    pub hour: u8,
    pub minute: u8,
    pub second: u8,
}

// The date of a day, counted from 1970.
fn date_of(day: i64) -> Date
    requires { IsBetween (neg_ℤ (pos 719_528)) (pos 2_932_896) day }
    ensures day { epoch_day result ≡ day }
    ensures year { pos 0 ≤ℤ result.year }
{
    match Date::from_unix_epoch_day(day) {
        Ok(date) => date,
        Err(_) => unreachable!(),
    }
}

// The date and the time of day.
fn moment_of(seconds: i64) -> Moment
    requires { IsBetween (neg_ℤ (pos 62_167_219_200)) (pos 253_402_300_799) seconds }
    ensures value { result ≡ moment_of seconds }
    ensures year { result.year ≤ 9999 }
{
    let count = (seconds + 62_167_219_200) as u64;
    let date = date_of((count / 86_400) as i64 - 719_528);
    let rest = (count % 86_400) as u32;
    Moment {
        year: date.year as u16,
        month: date.month,
        day: date.day,
        hour: (rest / 3600) as u8,
        minute: (rest / 60 % 60) as u8,
        second: (rest % 60) as u8,
    }
}

// YYMMDDhhmmssZ.
#[tactic(auto, unfolding(crate::specs::Moments::utc_text))]
fn utc_text(m: &Moment) -> [u8; 13]
    requires { m.now.year ≤ 9999 }
    ensures { result ≡ utc_text m.now }
{
    [
        48 + (m.year % 100 / 10) as u8,
        48 + (m.year % 100 % 10) as u8,
        48 + m.month / 10,
        48 + m.month % 10,
        48 + m.day / 10,
        48 + m.day % 10,
        48 + m.hour / 10,
        48 + m.hour % 10,
        48 + m.minute / 10,
        48 + m.minute % 10,
        48 + m.second / 10,
        48 + m.second % 10,
        b'Z',
    ]
}

// YYYYMMDDhhmmssZ.
#[tactic(auto, unfolding(crate::specs::Moments::generalized_text))]
fn generalized_text(m: &Moment) -> [u8; 15]
    requires { m.now.year ≤ 9999 }
    ensures { result ≡ generalized_text m.now }
{
    [
        48 + (m.year / 100 / 10) as u8,
        48 + (m.year / 100 % 10) as u8,
        48 + (m.year % 100 / 10) as u8,
        48 + (m.year % 100 % 10) as u8,
        48 + m.month / 10,
        48 + m.month % 10,
        48 + m.day / 10,
        48 + m.day % 10,
        48 + m.hour / 10,
        48 + m.hour % 10,
        48 + m.minute / 10,
        48 + m.minute % 10,
        48 + m.second / 10,
        48 + m.second % 10,
        b'Z',
    ]
}

/// Appends a GeneralizedTime.
#[tactic(auto, unfolding(crate::specs::Moments::generalized_time))]
pub fn put_generalized_time(out: &mut Octs, seconds: i64) -> Result<(), OutOfMemory>
    requires { IsBetween (neg_ℤ (pos 62_167_219_200)) (pos 253_402_300_799) seconds }
    ensures { OnOk result (out.new ≡ out.old ++ generalized_time seconds) }
{
    let moment = moment_of(seconds);
    put_tlv(out, 0x18, &generalized_text(&moment))
}

/// Appends a UTCTime through 2049, else a GeneralizedTime.
#[tactic(auto, unfolding(crate::specs::Moments::time))]
pub fn put_time(out: &mut Octs, seconds: i64) -> Result<(), OutOfMemory>
    requires { IsBetween (neg_ℤ (pos 62_167_219_200)) (pos 253_402_300_799) seconds }
    ensures { OnOk result (out.new ≡ out.old ++ time seconds) }
{
    let moment = moment_of(seconds);
    if moment.year < 2050 {
        put_tlv(out, 0x17, &utc_text(&moment))
    } else {
        put_generalized_time(out, seconds)
    }
}
