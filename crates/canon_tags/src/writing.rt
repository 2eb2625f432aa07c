//! Names, attributes and declarations as they are written.

ghost use Rattle.std.specs.Prelude.{◌≡◌, ◌++◌, encode_utf8_all, OnOk};
ghost use Rattle.std.specs.Str.{chars};
ghost use Rattle.document_model.specs.Names.{spelled_with};
ghost use Rattle.document_model.specs.Canonical.{attribute_text, declaration_text, declared_as};
ghost use Rattle.xml_items.specs.Found.{value_in, IsValueText};

use canon_texts::put_value;
use doc_spans::Pieces;
use xa_io::{Octs, OutOfMemory};

// Appends a name.
fn put_name(out: &mut Octs, prefix: &str, local: &str) -> Result<(), OutOfMemory>
    ensures { OnOk result (out.new ≡ out.old ++ encode_utf8_all (spelled_with (chars prefix.now) (chars local.now))) }
{
    if prefix.is_empty() {
        out.push_all(local.as_bytes())?;
        return Ok(());
    }
    out.push_all(prefix.as_bytes())?;
    out.push_all(b":")?;
    out.push_all(local.as_bytes())?;
    Ok(())
}

// Appends a space, a name, and a value in quotes.
pub(crate) fn put_attribute(
    out: &mut Octs,
    prefix: &str,
    local: &str,
    value: &str,
) -> Result<(), OutOfMemory>
    requires { IsValueText value.now }
    ensures { OnOk result (out.new ≡ out.old ++ encode_utf8_all (attribute_text (spelled_with (chars prefix.now) (chars local.now)) (value_in (chars value.now)))) }
{
    out.push_all(b" ")?;
    put_name(out, prefix, local)?;
    out.push_all(b"=\"")?;
    put_value(out, Pieces::of_value(value))?;
    out.push_all(b"\"")?;
    Ok(())
}

// Appends a declaration of a prefix, or of the default.
pub(crate) fn put_declaration(out: &mut Octs, prefix: &str, value: &str) -> Result<(), OutOfMemory>
    requires { IsValueText value.now }
    ensures { OnOk result (out.new ≡ out.old ++ encode_utf8_all (declaration_text (declared_as (chars prefix.now) (value_in (chars value.now))))) }
{
    if prefix.is_empty() {
        put_attribute(out, "", "xmlns", value)?;
    } else {
        put_attribute(out, "xmlns", prefix, value)?;
    }
    Ok(())
}
