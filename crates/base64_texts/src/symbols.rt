//! What a character is to base64.

ghost use Rattle.std.specs.Prelude.{◌≡◌, ◌<◌, ◌≤◌};
ghost use Rattle.document_model.specs.Characters.{is_white as is_white_space};
ghost use Rattle.base64_texts.specs.Symbols.{value_of};

// The value of a symbol (RFC 4648, table 1).
#[tactic(auto, unfolding(crate::specs::Symbols::value_of))]
pub(crate) fn symbol_value(octet: u8) -> Option<u8>
    ensures { result ≡ value_of octet }
{
    match octet {
        b'A'..=b'Z' => Some(octet - b'A'),
        b'a'..=b'z' => Some(octet - b'a' + 26),
        b'0'..=b'9' => Some(octet - b'0' + 52),
        b'+' => Some(62),
        b'/' => Some(63),
        _ => None,
    }
}

// Whether a character is white space (XML 1.0, "Common Syntactic Constructs").
pub(crate) fn is_white(octet: u8) -> bool
    ensures { result ≡ is_white_space octet }
{
    matches!(octet, b' ' | b'\t' | b'\n' | b'\r')
}

// The octet of an ASCII character; for each other one an octet past ASCII, which is as little a symbol as it is.
pub(crate) fn octet_for(c: char) -> u8
    ensures ascii { c < 128 → result ≡ c }
    ensures other { 128 ≤ c → 128 ≤ result }
{
    if c.is_ascii() { c as u8 } else { 0xFF }
}
