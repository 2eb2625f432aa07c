//! The attributes that a tag is written with.

ghost use Rattle.std.specs.Prelude.{◌≡◌, ◌++◌, ◌≤◌, List, [], map, take, length, vec_len, OnOk, if◌then◌else◌};
ghost use Rattle.std.specs.Str.{chars};
ghost use Rattle.document_model.specs.Characters.{is_empty};
ghost use Rattle.document_model.specs.Items as items;
ghost use Rattle.document_model.specs.Canonical.{sorted, with_inherited};
ghost use Rattle.xml_items.specs.Attributes.{attribute_in, attributes_left};
ghost use Rattle.xml_items.specs.Found.{value_in, IsValueText};
ghost use Rattle.doc_spans.specs.Scoped.{space_in};
ghost use Rattle.doc_spans.specs.Looked.{declared};
ghost use Rattle.doc_spans.specs.OpenTags.{tag_in};
ghost use Rattle.doc_spans.specs.Declarations.{nearest_first};
ghost use Rattle.doc_spans.specs.Opened.{opened_in};
ghost use Rattle.canon_tags.specs.Entries.{entry_in, entries_in, is_named_before, named, plain_ones, attributes_of_entries, inherited_of};

use crate::entries::Entry;
use crate::entry_lists::{has_local, put_in_order};
use doc_spans::OpenTag;
use doc_spans::declarations::Declared;
use doc_spans::opened::Opened;
use doc_spans::scopes::declared_prefix;
use doc_spans::stacks::Scopes;
use std::alloc::AllocError;
use xml_items::attribute_walk::{Attribute, Attributes};
use xml_items::texts::{is, is_empty};

// The namespace name of an attribute's name: the default is not for attributes.
fn attribute_space<'a>(scope: Declared<'_, 'a>, prefix: &str) -> &'a str
    ensures value { value_in (chars result.now) ≡ (if is_empty (chars prefix.now) then [] else space_in (chars prefix.now) (declared scope.entry)) }
    ensures read { IsValueText result.now }
{
    if is_empty(prefix) {
        ""
    } else {
        scope.space_of(prefix)
    }
}

// An attribute with its expanded name.
fn entry_of<'a>(scope: Declared<'_, 'a>, a: Attribute<'a>) -> Entry<'a>
    ensures { entry_in result ≡ named (declared scope.entry) (attribute_in a.entry) }
{
    Entry {
        prefix: a.prefix,
        local: a.local,
        value: a.value,
        space: attribute_space(scope, a.prefix),
    }
}

// Takes the attributes that are no declarations.
pub(crate) fn collect<'a>(
    entries: &mut Vec<Entry<'a>>,
    scope: Declared<'_, 'a>,
    attributes: &[Attribute<'a>],
) -> Result<(), AllocError>
    ensures { OnOk result (entries_in entries.new.items ≡ entries_in entries.old.items ++ map (named (declared scope.entry)) (plain_ones (map attribute_in attributes.now))) }
{
    let mut rest = attributes;
    'attributes: while let [a, behind @ ..] = rest {
        if declared_prefix(*a).is_none() {
            entries.push(entry_of(scope, *a))?;
        }
        rest = behind;
    }
    Ok(())
}

// Takes the `xml:` attributes of an element around the apex whose names are not there yet.
fn inherit_from<'a>(
    entries: &mut Vec<Entry<'a>>,
    scope: Declared<'_, 'a>,
    attributes: Attributes<'a>,
) -> Result<(), AllocError>
    ensures { OnOk result (entries_in entries.new.items ≡ entries_in entries.old.items ++ map (named (declared scope.entry)) (inherited_of (attributes_of_entries (entries_in entries.old.items)) (attributes_left attributes.entry))) }
{
    let count = entries.len();
    let mut rest = attributes;
    'attributes: loop {
        match rest.first() {
            Some((a, behind)) => {
                if is(a.prefix, "xml") && !has_local(&entries[..count], a.local) {
                    entries.push(entry_of(scope, a))?;
                }
                rest = behind;
            }
            None => return Ok(()),
        }
    }
}

// Takes the nearest `xml:` attribute of each name of the elements around the apex: Canonical XML 1.0, section 2.4.
pub(crate) fn inherit<'a>(
    entries: &mut Vec<Entry<'a>>,
    scope: Declared<'_, 'a>,
    tags: &[Opened<'a>],
) -> Result<(), AllocError>
    ensures { OnOk result ((attributes : List items.Attribute) → entries_in entries.old.items ≡ map (named (declared scope.entry)) attributes
        → entries_in entries.new.items ≡ map (named (declared scope.entry)) (with_inherited attributes (opened_in tags.now))) }
{
    let mut left = tags.len();
    'tags: while left > 0 {
        left -= 1;
        inherit_from(entries, scope, Attributes::of(tags[left].tag.attributes))?;
    }
    Ok(())
}

// Takes the attributes that an element is written with, in their order: its own, and those that it inherits from the outermost elements,
// so many, around it.
pub(crate) fn arrange<'a>(
    entries: &mut Vec<Entry<'a>>,
    pending: &mut Vec<Entry<'a>>,
    scopes: &Scopes<'a>,
    tag: OpenTag<'a>,
    table: &[Attribute<'a>],
    givers: usize,
) -> Result<(), AllocError>
    requires givers { givers ≤ vec_len scopes.now.tags }
    requires table { map attribute_in table.now ≡ (tag_in tag).attributes }
    ensures { OnOk result (entries_in entries.new.items ≡ sorted is_named_before (map (named (nearest_first scopes.now.declarations.items)) (with_inherited (plain_ones (tag_in tag.entry).attributes) (opened_in (take givers scopes.now.tags.items))))) }
{
    entries.clear();
    pending.clear();
    let scope = Declared {
        items: scopes.declarations.as_slice(),
    };
    collect(pending, scope, table)?;
    inherit(pending, scope, &scopes.tags[..givers])?;
    put_in_order(pending, entries)
}
