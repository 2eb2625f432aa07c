//! The one text of a time, `YYYY-MM-DDThh:mm:ssZ` (RFC 3339, section 5.6): UTC, no fraction, the years 0000 to 9999 of the Gregorian calendar.
//!
//! `utc_times` reads such texts and writes them. Here it is said which text is written, and that no other one names the same time.
#![tactic(auto)]

ghost use Rattle.std.specs.Prelude.{◌≡◌};
ghost use Rattle.time_texts.specs.Clock.{clock, IsOfYears, ClockTellsTheTime, TimesHaveOneText};

use utc_times::time_text;

/// The text of a time, in seconds since 1970, of the years 0000 to 9999.
pub fn clock(seconds: i64) -> [u8; 20]
    requires { IsOfYears seconds }
    ensures { result ≡ clock seconds }
{
    time_text(seconds)
}

/// The text of a time of the years 0000 to 9999 names this time.
pub fn clock_tells_the_time()
    ensures { ClockTellsTheTime }
{}

/// A text that names a time is the text of this time.
pub fn times_have_one_text()
    ensures { TimesHaveOneText }
{}
