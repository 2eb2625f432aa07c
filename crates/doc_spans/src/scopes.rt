//! Scopes of declarations, and whether the names of a tag are sound in them.

ghost use Rattle.std.specs.Prelude.{◌≡◌, not, option_map, codes, IfSome, if◌then◌else◌};
ghost use Rattle.std.specs.Str.{chars};
ghost use Rattle.document_model.specs.Characters.{is_empty, ◌is◌};
ghost use Rattle.document_model.specs.Scopes.{xml_space, xmlns_space, declared_prefix, declares, declared_value, may_bind, is_sound_declaration};
ghost use Rattle.xml_items.specs.Found.{value_in, IsValueText};
ghost use Rattle.xml_items.specs.Attributes.{attribute_in, attributes_left};
ghost use Rattle.doc_spans.specs.ScopesIn.{bound_space};

use xml_items::attribute_walk::{Attribute, Attributes};
use xml_items::texts::{is, is_empty, same};
use xml_items::value_texts::{is_empty_value, same_values, value_fits};

// The namespace name of the prefix `xml`.
const XML_SPACE: &str = "http://www.w3.org/XML/1998/namespace";

// The namespace name of the prefix `xmlns`.
const XMLNS_SPACE: &str = "http://www.w3.org/2000/xmlns/";

// The most bytes of a namespace name.
const LONGEST_SPACE: usize = 4096;

/// The namespace name of a prefix that no declaration changes, that of `xml` and of `xmlns`: as the text of a value.
pub fn bound_space(prefix: &str) -> Option<&'static str>
    ensures value { option_map (λ v. value_in (chars v.now)) result ≡ bound_space (chars prefix.now) }
    ensures read { IfSome result (λ v. IsValueText v.now) }
{
    if is(prefix, "xml") {
        Some(XML_SPACE)
    } else if is(prefix, "xmlns") {
        Some(XMLNS_SPACE)
    } else {
        None
    }
}

/// The prefix that an attribute declares, empty for the default, where it is a declaration.
pub fn declared_prefix<'a>(a: Attribute<'a>) -> Option<&'a str>
    ensures { declared_prefix (attribute_in a.entry) ≡ option_map (λ p. chars p.now) result }
{
    if is_empty(a.prefix) && is(a.local, "xmlns") {
        Some("")
    } else if is(a.prefix, "xmlns") {
        Some(a.local)
    } else {
        None
    }
}

// Whether an attribute declares a prefix.
pub(crate) fn declares<'a>(prefix: &str, a: Attribute<'a>) -> bool
    ensures { result ≡ declares (chars prefix.now) (attribute_in a.entry) }
{
    match declared_prefix(a) {
        Some(declared) => same(declared, prefix),
        None => false,
    }
}

fn is_xml_space(value: &str) -> bool
    requires { IsValueText value.now }
    ensures { result ≡ (value_in (chars value.now) is xml_space) }
{
    same_values(value, XML_SPACE)
}

fn is_xmlns_space(value: &str) -> bool
    requires { IsValueText value.now }
    ensures { result ≡ (value_in (chars value.now) is xmlns_space) }
{
    same_values(value, XMLNS_SPACE)
}

// Whether a prefix, or the default, may be bound to a value.
fn may_bind(prefix: &str, value: &str) -> bool
    requires { IsValueText value.now }
    ensures { result ≡ may_bind (chars prefix.now) (value_in (chars value.now)) }
{
    !is(prefix, "xmlns")
        && (is_empty(prefix) || !is_empty_value(value))
        && is_xml_bound_alone(prefix, value)
        && !is_xmlns_space(value)
        && value_fits(value, LONGEST_SPACE)
}

// The prefix `xml` is bound to its own namespace name, and no other is.
fn is_xml_bound_alone(prefix: &str, value: &str) -> bool
    requires { IsValueText value.now }
    ensures { result ≡ (if chars prefix.now is codes "xml" then value_in (chars value.now) is xml_space else not (value_in (chars value.now) is xml_space)) }
{
    if is(prefix, "xml") {
        is_xml_space(value)
    } else {
        !is_xml_space(value)
    }
}

pub(crate) fn is_sound_declaration<'a>(a: Attribute<'a>) -> bool
    ensures { result ≡ is_sound_declaration (attribute_in a.entry) }
{
    match declared_prefix(a) {
        Some(prefix) => may_bind(prefix, a.value),
        None => true,
    }
}

/// The value of the first declaration of a prefix, as it stands between its quotes.
pub fn declared_value<'a>(prefix: &str, attributes: Attributes<'a>) -> Option<&'a str>
    ensures value { declared_value (chars prefix.now) (attributes_left attributes.entry) ≡ option_map (λ v. value_in (chars v.now)) result }
    ensures read { IfSome result (λ v. IsValueText v.now) }
{
    let mut rest = attributes;
    'attributes: loop {
        match rest.first() {
            Some((a, behind)) => {
                if declares(prefix, a) {
                    return Some(a.value);
                }
                rest = behind;
            }
            None => return None,
        }
    }
}
