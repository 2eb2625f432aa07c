//! What prefixes and names mean at a node: Namespaces in XML 1.0, sections 3 to 6.

ghost use Rattle.std.specs.Prelude.{◌≡◌, [], IfSome, option_map, option_and_then, if◌then◌else◌};
ghost use Rattle.std.specs.Str.{chars};
ghost use Rattle.document_model.specs.Characters.{is_empty};
ghost use Rattle.document_model.specs.Names.{same_expanded};
ghost use Rattle.document_model.specs.Scopes.{declared_space, declared_value, space_of, attribute_name, value_among};
ghost use Rattle.xml_items.specs.Found.{value_in, IsValueText};
ghost use Rattle.xml_items.specs.Attributes.{attribute_in, attributes_left};
ghost use Rattle.doc_spans.specs.Pieces.{characters_left};
ghost use Rattle.doc_spans.specs.Seen.{Has, tag_of};
ghost use Rattle.node_sets.specs.Scopes.{scope_of, scope_from, named, named_at, attribute_at, bound};

use doc_spans::scopes::{bound_space, declared_value};
use doc_spans::{Doc, NodeId, Pieces};
use xml_items::attribute_walk::{Attribute, Attributes};
use xml_items::names::name_parts;
use xml_items::texts::{is_empty, same};
use xml_items::value_texts::is_empty_value;

// The value that the tag of a node itself declares for a prefix.
fn declared_here<'a>(doc: Doc<'a>, node: NodeId, prefix: &str) -> Option<&'a str>
    requires { Has doc node }
    ensures value { option_map (λ v. value_in (chars v.now)) result ≡ option_and_then (λ tag. declared_value (chars prefix.now) tag.attributes) (tag_of doc.entry node) }
    ensures read { IfSome result (λ v. IsValueText v.now) }
{
    match doc.open_tag(node) {
        Some(tag) => declared_value(prefix, Attributes::of(tag.attributes)),
        None => None,
    }
}

// The value of a prefix by the declarations of a node and of the elements around it; the text of an empty value where none declares it.
fn declared_space<'a>(doc: Doc<'a>, node: NodeId, prefix: &str) -> &'a str
    requires { Has doc node }
    ensures value { value_in (chars result.now) ≡ declared_space (chars prefix.now) (scope_of doc.entry node) }
    ensures read { IsValueText result.now }
{
    let mut at = Some(node);
    'outward: while let Some(here) = at {
        if let Some(value) = declared_here(doc, here, prefix) {
            return value;
        }
        at = doc.parent(here);
    }
    ""
}

// The value of a prefix at a node.
fn space_of<'a>(doc: Doc<'a>, node: NodeId, prefix: &str) -> &'a str
    requires { Has doc node }
    ensures value { value_in (chars result.now) ≡ space_of (chars prefix.now) (scope_of doc.entry node) }
    ensures read { IsValueText result.now }
{
    match bound_space(prefix) {
        Some(space) => space,
        None => declared_space(doc, node, prefix),
    }
}

/// The namespace name of a prefix in the scope of a node, and of the default namespace where the prefix is empty; none where it has
/// none there, or the empty one. The scope of a node that isn't an element is that of the element around it.
pub fn in_scope<'a>(doc: Doc<'a>, node: NodeId, prefix: &str) -> Option<Pieces<'a>>
    requires { Has doc node }
    ensures { option_map characters_left result ≡ bound (space_of (chars prefix.now) (scope_of doc.entry node)) }
{
    let value = space_of(doc, node, prefix);
    if is_empty_value(value) {
        None
    } else {
        Some(Pieces::of_value(value))
    }
}

/// Whether the node is an element with this expanded name: its namespace name, empty for none, and its local part.
pub fn is_named(doc: Doc<'_>, node: NodeId, space: &str, local: &str) -> bool
    requires { Has doc node }
    ensures { result ≡ named_at doc.entry node (named space.now local.now) }
{
    match doc.open_tag(node) {
        Some(tag) => {
            let (prefix, name) = name_parts(tag.name);
            same(local, name) && Pieces::of_value(space_of(doc, node, prefix)).same(space)
        }
        None => false,
    }
}

// The namespace name of an attribute's name: the default is not for attributes (Namespaces in XML 1.0, section 6.2).
fn attribute_space<'a>(doc: Doc<'a>, node: NodeId, prefix: &str) -> &'a str
    requires { Has doc node }
    ensures value { value_in (chars result.now) ≡ (if is_empty (chars prefix.now) then [] else space_of (chars prefix.now) (scope_of doc.entry node)) }
    ensures read { IsValueText result.now }
{
    if is_empty(prefix) {
        ""
    } else {
        space_of(doc, node, prefix)
    }
}

// Whether an attribute of an element has this expanded name.
fn is_attribute<'a>(doc: Doc<'a>, node: NodeId, a: Attribute<'a>, space: &str, local: &str) -> bool
    requires { Has doc node }
    ensures { result ≡ same_expanded (named space.now local.now) (attribute_name (scope_of doc.entry node) (attribute_in a.entry).name) }
{
    same(local, a.local) && Pieces::of_value(attribute_space(doc, node, a.prefix)).same(space)
}

// The first of some attributes of an element that has this expanded name.
fn attribute_among<'a>(
    doc: Doc<'a>,
    node: NodeId,
    attributes: Attributes<'a>,
    space: &str,
    local: &str,
) -> Option<Pieces<'a>>
    requires { Has doc node }
    ensures { option_map characters_left result ≡ value_among (scope_of doc.entry node) (named space.now local.now) (attributes_left attributes.entry) }
{
    let mut rest = attributes;
    'attributes: loop {
        match rest.first() {
            Some((a, behind)) => {
                if is_attribute(doc, node, a, space, local) {
                    return Some(Pieces::of_value(a.value));
                }
                rest = behind;
            }
            None => return None,
        }
    }
}

/// The value of an element's attribute by its expanded name, where the namespace name is empty for an attribute without prefix; none
/// for another node.
pub fn attribute<'a>(doc: Doc<'a>, node: NodeId, space: &str, local: &str) -> Option<Pieces<'a>>
    requires { Has doc node }
    ensures { option_map characters_left result ≡ attribute_at doc.entry node (named space.now local.now) }
{
    match doc.open_tag(node) {
        Some(tag) => attribute_among(doc, node, Attributes::of(tag.attributes), space, local),
        None => None,
    }
}
