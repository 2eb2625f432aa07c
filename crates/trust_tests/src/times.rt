//! Times that are known from elsewhere (`date -u -d TEXT +%s`), and texts that are none.

ghost use Rattle.std.specs.Prelude.{◌≤ℤ◌, pos, neg_ℤ};
ghost use Rattle.jiff_core.specs.Calendar.{IsBetween};

use utc_times::{read_time, seconds, time_text};

// Whether a text is read as a time, and that time is written as the text.
fn are_one(text: &str, time: i64) -> bool
    requires { IsBetween (neg_ℤ (pos 62_167_219_200)) (pos 253_402_300_799) time }
{
    read_time(text.as_bytes()) == Some(time) && time_text(time).as_slice() == text.as_bytes()
}

#[test]
fn times_and_texts(rt: HostRuntime) {
    assert!(rt; are_one("1970-01-01T00:00:00Z", 0));
    assert!(rt; are_one("2000-02-29T12:00:00Z", 951_825_600));
    assert!(rt; are_one("1969-12-31T23:59:59Z", -1));
    assert!(rt; are_one("2038-01-19T03:14:08Z", 2_147_483_648));
    assert!(rt; are_one("0000-01-01T00:00:00Z", -62_167_219_200));
    assert!(rt; are_one("9999-12-31T23:59:59Z", 253_402_300_799));
}

const NO_TIMES: [&str; 7] = [
    "1900-02-29T00:00:00Z",
    "2030-01-01T00:00:60Z",
    "2030-01-01T24:00:00Z",
    "2030-01-01t00:00:00Z",
    "2030-01-01T00:00:00z",
    "2030-01-01T00:00:00.5Z",
    "",
];

#[test]
fn texts_that_are_no_times(rt: HostRuntime) {
    for text in NO_TIMES {
        assert!(rt; read_time(text.as_bytes()).is_none());
    }
}

#[test]
fn parts_of_a_time(rt: HostRuntime) {
    assert!(rt; seconds(2000, 2, 29, 12, 0, 0) == Some(951_825_600));
    assert!(rt; seconds(1900, 2, 29, 0, 0, 0).is_none());
    assert!(rt; seconds(2030, 1, 1, 0, 0, 60).is_none());
}
