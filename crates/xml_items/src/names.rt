// Names of elements and attributes.
ghost use Rattle.std.specs.Prelude.{◌≡◌, is_some};
ghost use Rattle.std.specs.Str.{chars};
ghost use Rattle.document_model.specs.Names.{is_plain_name, name_of, same_name};
ghost use Rattle.xml_items.specs.Found.{name_in, IsNameText};

use crate::classes::{Class, all, first, front, has};
use crate::short_tags::is_short_name;

pub fn is_plain_name(text: &str) -> bool
    ensures { result ≡ is_plain_name (chars text.now) }
{
    let mut rest = text.chars();
    match rest.next() {
        Some(c) => {
            if has(Class::NameStart, c) {
                all(rest.as_str(), Class::NamePart)
            } else {
                false
            }
        }
        None => false,
    }
}

// Whether a text is a name, of one part or of two that a colon joins.
pub fn is_name(text: &str) -> bool
    ensures { result ≡ is_some (name_of (chars text.now)) }
{
    is_short_name(text.as_bytes()) || is_name_by_parts(text)
}

// The same, by the characters of its parts.
fn is_name_by_parts(text: &str) -> bool
    ensures { result ≡ is_some (name_of (chars text.now)) }
{
    let (prefix, behind) = front(text, Class::Except(':'));
    let mut rest = behind.chars();
    match rest.next() {
        Some(_) => is_plain_name(prefix) && is_plain_name(rest.as_str()),
        None => is_plain_name(prefix),
    }
}

// Whether two texts of names spell the same name: they do where they are the same, byte by byte.
pub fn same_name(a: &str, b: &str) -> bool
    requires first { IsNameText a.now }
    requires second { IsNameText b.now }
    ensures { result ≡ same_name (name_in (chars a.now)) (name_in (chars b.now)) }
{
    a.as_bytes() == b.as_bytes()
}

// The prefix of a name, empty where it has none, and its local part.
pub fn name_parts(name: &str) -> (&str, &str)
    requires { IsNameText name.now }
    ensures prefix { (name_in (chars name.now)).prefix ≡ chars result.0.now }
    ensures local { (name_in (chars name.now)).local ≡ chars result.1.now }
{
    let (before, behind) = front(name, Class::Except(':'));
    match first(behind) {
        Some((_, local)) => (before, local),
        None => ("", before),
    }
}
