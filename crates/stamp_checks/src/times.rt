//! The times of tokens (RFC 3161, section 2.4.2, genTime) against a moment and against one another.

ghost use Rattle.std.specs.Prelude.{◌≡◌, ◌<◌, length, option_and_then};
ghost use Rattle.doc_spans.specs.declared.documents.Doc.{Doc};
ghost use Rattle.doc_spans.specs.Seen.{document_in};
ghost use Rattle.qualifying_props.specs.PartsOf.{AreParts};
ghost use Rattle.qualifying_props.specs.Shown.{token_at};
ghost use Rattle.qualifying_props.specs.Wholes.{AreWhole};
ghost use Rattle.signature_elements.specs.Standing.{spot_of};
ghost use Rattle.stamp_checks.specs.Times.{after_moment, later_time};
ghost use Rattle.tst_tokens.specs.View.{token_bytes};

use qualifying_props::SignatureParts;
use tst_tokens::{Token, read_token};

/// The time of a token in seconds since 1970, where it is after a moment.
pub fn time_after(token: &Token<'_>, moment: i64) -> Option<i64>
    ensures { result ≡ after_moment moment (token_bytes token.now) }
{
    let time = token.gen_time();
    if moment < time { Some(time) } else { None }
}

// The time of a property's token, where the property is a time-stamp and the time is later than another.
fn later_at(parts: &SignatureParts, number: usize, time: i64) -> Option<i64>
    requires whole { AreWhole parts.now }
    requires number { number < length parts.now.properties }
    ensures { result ≡ option_and_then (after_moment time) (token_at parts.now number) }
{
    match parts.token(number) {
        Some(octets) => match read_token(octets) {
            Ok(token) => time_after(&token, time),
            Err(_) => None,
        },
        None => None,
    }
}

/// The time of the first time-stamp of a signature, on the signature or on the archive, that is later than a time; in seconds since 1970.
/// The next time-stamp on the archive covers all of them.
pub fn later_time(parts: &SignatureParts, time: i64) -> Option<i64>
    requires { AreWhole parts.now }
    ensures { (doc : Doc) → AreParts doc parts.now → result ≡ later_time time (document_in doc) (spot_of doc parts.now.signature) }
{
    for number in 0..parts.properties() {
        let found = later_at(parts, number, time);
        if found.is_some() {
            return found;
        }
    }
    None
}
