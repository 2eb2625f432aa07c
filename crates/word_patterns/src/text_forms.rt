//! Texts behind a key.

ghost use Rattle.std.specs.Prelude.{◌≡◌};
ghost use Rattle.std.specs.List.{list_all};
ghost use Rattle.std.specs.Str.{chars};
ghost use Rattle.document_model.specs.Methods.{cut_at};
ghost use Rattle.word_patterns.specs.TextForms.{is_of_text, is_comma, is_prefix_word, are_prefixes, is_time, starts_id, continues_id, is_signature_id, is_uri_character, is_uri};

use utc_times::read_time;
use xml_items::classes::{Class, first, front, has};
use xml_items::names::is_plain_name;
use xml_items::texts::is;

/// A form of texts.
#[derive(Clone, Copy, Debug)]
pub enum TextForm {
    /// The name of a file: 1 to 4,096 bytes.
    FileName,
    /// One or more prefixes that commas join; `#default` stands for the default namespace.
    Prefixes,
    /// Any text but the empty one.
    Text,
    /// A real date and time of the years 0000 to 9999, `YYYY-MM-DDThh:mm:ssZ`, with seconds to 59.
    Time,
    /// The identifier of a signature: 1 to 64 bytes, an ASCII letter or `_`, and behind it also ASCII digits, `.` and `-`.
    SignatureId,
    /// A URI: at most 4,096 bytes, of characters of XML without tab, LF and CR.
    Uri,
    /// A URI that isn't empty.
    SomeUri,
}

impl TextForm {
    // Whether a text is of the form.
    pub(crate) fn allows(self, text: &str) -> bool
        ensures { result ≡ is_of_text self text.now }
    {
        match self {
            TextForm::FileName => text.len() >= 1 && text.len() <= 4096,
            TextForm::Prefixes => are_prefixes(text),
            TextForm::Text => text.len() >= 1,
            TextForm::Time => is_time(text),
            TextForm::SignatureId => is_signature_id(text.as_bytes()),
            TextForm::Uri => is_uri(text),
            TextForm::SomeUri => text.len() >= 1 && is_uri(text),
        }
    }
}

fn is_prefix_word(word: &str) -> bool
    ensures { result ≡ is_prefix_word (chars word.now) }
{
    is_plain_name(word) || is(word, "#default")
}

fn are_prefixes(text: &str) -> bool
    ensures { result ≡ are_prefixes text.now }
{
    let mut rest = text;
    'prefixes: loop {
        let (word, behind) = front(rest, Class::Except(','));
        if !is_prefix_word(word) {
            return false;
        }
        match first(behind) {
            Some((_, further)) => rest = further,
            None => return true,
        }
    }
}

fn is_time(text: &str) -> bool
    ensures { result ≡ is_time text.now }
{
    read_time(text.as_bytes()).is_some()
}

fn starts_id(byte: u8) -> bool
    ensures { result ≡ starts_id byte }
{
    matches!(byte, b'A'..=b'Z' | b'_' | b'a'..=b'z')
}

fn continues_id(byte: u8) -> bool
    ensures { result ≡ continues_id byte }
{
    starts_id(byte) || matches!(byte, b'-'..=b'.' | b'0'..=b'9')
}

// Whether all bytes may stand behind the first.
fn go_on(bytes: &[u8]) -> bool
    ensures { result ≡ list_all continues_id bytes.now }
{
    bytes.iter().all(|byte| continues_id(*byte))
}

fn is_signature_id(text: &[u8]) -> bool
    ensures { result ≡ is_signature_id text.now }
{
    match text {
        [first, rest @ ..] => starts_id(*first) && go_on(rest) && rest.len() <= 63,
        [] => false,
    }
}

fn is_uri_character(c: char) -> bool
    ensures { result ≡ is_uri_character c }
{
    c >= ' ' && has(Class::Char, c)
}

fn are_uri_characters(text: &str) -> bool
    ensures { result ≡ list_all is_uri_character (chars text.now) }
{
    text.chars().all(|c| is_uri_character(c))
}

fn is_uri(text: &str) -> bool
    ensures { result ≡ is_uri text.now }
{
    text.len() <= 4096 && are_uri_characters(text)
}
