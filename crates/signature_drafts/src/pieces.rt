//! Values of attributes, numbers and base64, as fragments have them.

ghost use Rattle.std.specs.Prelude.{◌≡◌, ◌++◌, OnOk, flat_map, encode_utf8_all, decimal};
ghost use Rattle.std.specs.Str.{chars};
ghost use Rattle.document_model.specs.Canonical.{value_character};
ghost use Rattle.signature_model.specs.Fragments.{encoded, written_octets};

use base64::engine::general_purpose::STANDARD;
use canon_texts::put_value;
use doc_spans::Pieces;
use itoa::Buffer;
use std::alloc::Global;
use xa_io::{Octs, OutOfMemory};

// Appends the value of an attribute, without its quotes.
pub(crate) fn put_quoted(out: &mut Octs, value: &str) -> Result<(), OutOfMemory>
    ensures { OnOk result (out.new ≡ out.old ++ encode_utf8_all (flat_map value_character (chars value.now))) }
{
    put_value(out, Pieces::of(value))
}

// Appends a number in decimal digits.
pub(crate) fn put_number(out: &mut Octs, number: u32) -> Result<(), OutOfMemory>
    ensures { OnOk result (out.new ≡ out.old ++ decimal number) }
{
    let mut buffer = Buffer::new();
    out.push_all(buffer.format(number).as_bytes())
}

/// Appends octets as unbroken base64 with padding (RFC 4648, section 4).
pub fn put_base64(alloc: Global, out: &mut Octs, octets: &[u8]) -> Result<(), OutOfMemory>
    ensures { OnOk result (out.new ≡ out.old ++ written_octets (encoded octets.now)) }
{
    match STANDARD.encode(alloc, octets) {
        Ok(text) => out.push_all(text.as_bytes()),
        Err(_) => Err(OutOfMemory),
    }
}
