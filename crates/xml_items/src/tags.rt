// Tags: names with values in quotes.
ghost use Rattle.std.specs.Prelude.{Some, ◌≡◌, ◌<◌, ◌≤◌, List, [], length, is_some, option_map, option_and_then, IfSome, ℕ, ◌++◌, IsTrue};
ghost use Rattle.std.specs.Str.{chars, IsUtf8};
ghost use Rattle.document_model.specs.Names.{Name};
ghost use Rattle.document_model.specs.Characters.{pieces_at, with_blanks, with_line_ends};
ghost use Rattle.document_model.specs.Items.{Item, Attribute, pair_at, attribute_of, value_of, with_references, tag_of, most_attributes};
ghost use Rattle.xml_items.specs.Found.{name_in, attributes_in, read_attributes, IsNameText, AreAttributesText};
ghost use Rattle.xml_items.specs.Pairs.{pair_in};

use crate::classes::{Class, behind_one, first, front};
use crate::names::is_name;
use crate::references::referred;
use crate::runs::are_ordinary;
use crate::short_tags::{ascii_text, quoted_end, short_run};
use crate::texts::{contains, without_space_behind};

// A name, and the text that stands in quotes behind it.
#[derive(Clone, Copy)]
pub struct Pair<'a> {
    pub name: &'a str,
    pub text: &'a str,
}

// The pair at the front of a text, and what is behind it.
pub fn pair_at<'a>(text: &'a str) -> Option<(Pair<'a>, &'a str)>
    ensures pair { pair_at (chars text.now) ≡ option_map (λ r. (pair_in r.0, chars r.1.now)) result }
    ensures utf8 { IfSome result (λ r. IsUtf8 r.1.now) }
{
    if text.is_empty() {
        return None;
    }
    match quick_pair(text) {
        Some(found) => Some(found),
        None => pair_by_characters(text),
    }
}

// The pair behind one space, where its name and its text are of ASCII and no other space stands around them.
fn quick_pair<'a>(text: &'a str) -> Option<(Pair<'a>, &'a str)>
    ensures pair { IfSome result (λ r. pair_at (chars text.now) ≡ Some (pair_in r.0, chars r.1.now)) }
    ensures utf8 { IfSome result (λ r. IsUtf8 r.1.now) }
{
    let bytes = text.as_bytes();
    if bytes.len() > 0 && bytes[0] == b' ' {
        let equals = short_run(bytes, 1);
        if equals + 2 <= bytes.len() && bytes[equals] == b'=' {
            let quote = bytes[equals + 1];
            let start = equals + 2;
            if quote == b'"' || quote == b'\'' {
                let end = quoted_end(bytes, start, quote);
                if end < bytes.len() && bytes[end] == quote {
                    let (_, rest) = text.split_at(end + 1);
                    let pair = Pair {
                        name: ascii_text(bytes, 1, equals),
                        text: ascii_text(bytes, start, end),
                    };
                    return Some((pair, rest));
                }
            }
        }
    }
    None
}

// The same as `pair_at`, by its characters.
fn pair_by_characters<'a>(text: &'a str) -> Option<(Pair<'a>, &'a str)>
    ensures pair { pair_at (chars text.now) ≡ option_map (λ r. (pair_in r.0, chars r.1.now)) result }
    ensures utf8 { IfSome result (λ r. IsUtf8 r.1.now) }
{
    let (space, rest) = front(text, Class::White);
    if space.is_empty() {
        return None;
    }
    let (name, rest) = front(rest, Class::NamePartOrColon);
    let (_, rest) = front(rest, Class::White);
    let (_, rest) = behind_one(rest, Class::Only('='))?;
    let (_, rest) = front(rest, Class::White);
    let (quote, rest) = behind_one(rest, Class::Quote)?;
    let (text, rest) = front(rest, Class::Except(quote));
    let (_, rest) = behind_one(rest, Class::Only(quote))?;
    Some((Pair { name, text }, rest))
}

// Whether each `&` of a value begins a reference, and no `<` stands in it.
pub fn is_value(text: &str) -> bool
    ensures { result ≡ is_some (value_of (chars text.now)) }
{
    are_ordinary(text.as_bytes()) || (!contains(text, "<") && are_references(text))
}

// Whether each `&` of a text begins a reference.
fn are_references(text: &str) -> bool
    ensures { result ≡ is_some (with_references (pieces_at 0x26 (with_blanks (with_line_ends (chars text.now)))).1) }
{
    let (_, mut rest) = front(text, Class::Except('&'));
    while let Some((_, behind)) = first(rest) {
        let (piece, further) = front(behind, Class::Except('&'));
        let (name, end) = front(piece, Class::Except(';'));
        if end.is_empty() || referred(name).is_none() {
            return false;
        }
        rest = further;
    }
    true
}

// Whether a pair is an attribute.
fn is_attribute(pair: &Pair) -> bool
    ensures { result ≡ is_some (attribute_of (pair_in pair.now)) }
{
    is_name(pair.name) && is_value(pair.text)
}

// Whether a text is attributes and no more, of at most so many.
pub fn are_attributes(text: &str, most: usize) -> bool
    ensures { result ≡ is_some (read_attributes most (chars text.now)) }
{
    let mut rest = text;
    let mut left = most;
    while !rest.is_empty() {
        if left == 0 {
            return false;
        }
        match pair_at(rest) {
            Some((pair, behind)) => {
                if !is_attribute(&pair) {
                    return false;
                }
                rest = behind;
                left -= 1;
            }
            None => return false,
        }
    }
    true
}

// The most attributes and declarations of one element.
pub const MOST_ATTRIBUTES: usize = 256;

// The name and the attributes of a tag, by what stands between `<` and `>` or `/>`.
pub fn tag<'a>(text: &'a str) -> Option<(&'a str, &'a str)>
    ensures placed { IfSome result (λ r. (space : List ℕ) × (text.now ≡ r.0.now ++ (r.1.now ++ space))) }
    ensures read { IfSome result (λ r. IsNameText r.0.now × AreAttributesText r.1.now) }
    ensures item { (make : Name → List Attribute → Item) → tag_of make (chars text.now) ≡ option_map (λ r. make (name_in (chars r.0.now)) (attributes_in (chars r.1.now))) result }
{
    let (name, attributes) = front(without_space_behind(text), Class::NamePartOrColon);
    if is_name(name) && are_attributes(attributes, MOST_ATTRIBUTES) {
        Some((name, attributes))
    } else {
        None
    }
}

// How many attributes a tag has, in a second pass over them.
pub fn attribute_count(attributes: &str) -> usize
    requires { IsTrue (is_some (read_attributes most_attributes (chars attributes.now))) }
    ensures count { result ≡ length (attributes_in (chars attributes.now)) }
    ensures bound { result ≤ 256 }
{
    let mut rest = attributes;
    for count in 0..MOST_ATTRIBUTES {
        match pair_at(rest) {
            Some((_, behind)) => rest = behind,
            None => return count,
        }
    }
    MOST_ATTRIBUTES
}
