//! Accuracy in whole seconds.

ghost use Rattle.std.specs.Prelude.{◌≡◌, ◌<◌, ◌^◌};
ghost use Rattle.der_values.specs.Elements as said;
ghost use Rattle.tst_tokens.specs.Tokens.{number_in, millionths, rounded_up};

use der_values::{count, with_tag};

fn number(tag: u8, content: &[u8]) -> u64
    ensures value { result ≡ number_in (said.tagged tag content.now) }
    ensures small { result < 2 ^ 31 }
{
    match with_tag(tag, content) {
        None => 0,
        Some(tlv) => match count(tlv.content) {
            None => 0,
            Some(n) => u64::from(n),
        },
    }
}

// Rounded up.
pub(crate) fn seconds_of_accuracy(content: &[u8]) -> u32
    ensures { result ≡ rounded_up (millionths content.now) }
{
    let seconds = number(0x02, content) * 1_000_000;
    let thousandths = number(0x80, content) * 1000;
    let millionths = number(0x81, content);
    ((seconds + thousandths + millionths + 999_999) / 1_000_000) as u32
}
