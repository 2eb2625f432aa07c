//! Whether a tag's names and declarations are sound where it stands.

ghost use Rattle.std.specs.Prelude.{◌≡◌, ◌||◌, [], not, if◌then◌else◌};
ghost use Rattle.std.specs.Str.{chars};
ghost use Rattle.document_model.specs.Characters.{is_empty};
ghost use Rattle.document_model.specs.Names.{same_expanded};
ghost use Rattle.document_model.specs.Scopes.{declared_space, space_of, attribute_name, none_is, is_sound};
ghost use Rattle.xml_items.specs.Found.{value_in, IsValueText};
ghost use Rattle.xml_items.specs.Attributes.{attribute_in, attributes_left};

use crate::declarations::Declared;
use crate::open_tags::OpenTag;
use crate::scopes::{bound_space, declared_value, is_sound_declaration};
use crate::stacks::Scopes;
use crate::tabled::{Known, gather_attributes};
use std::alloc::AllocError;
use xml_items::attribute_walk::{Attribute, Attributes};
use xml_items::names::name_parts;
use xml_items::texts::{is, is_empty, same};
use xml_items::value_texts::{is_empty_value, same_values};

// A tag, whose declarations are in scope for its own names, and the elements around it.
#[derive(Clone, Copy)]
pub(crate) struct Scope<'s, 'a> {
    pub(crate) outer: &'s Scopes<'a>,
    pub(crate) tag: OpenTag<'a>,
}

impl<'s, 'a> Scope<'s, 'a> {
    ghost use Rattle.doc_spans.specs.OpenTags.{tag_in};
    ghost use Rattle.doc_spans.specs.Scopes.{tags_around};
    ghost use Rattle.doc_spans.specs.ScopesIn.{scope_in, names_in, attribute_soundly, attributes_soundly, name_soundly};

    // The value of a prefix by the declarations; the text of an empty value where there is none.
    fn declared_space(&self, prefix: &str) -> &'a str
        ensures value { value_in (chars result.now) ≡ declared_space (chars prefix.now) (scope_in self.now) }
        ensures read { IsValueText result.now }
    {
        match declared_value(prefix, Attributes::of(self.tag.attributes)) {
            Some(value) => value,
            None => self.declared_outside(prefix),
        }
    }

    // The same by the declarations of the elements around the tag.
    pub(crate) fn declared_outside(&self, prefix: &str) -> &'a str
        ensures value { value_in (chars result.now) ≡ declared_space (chars prefix.now) (tags_around self.now.outer.now) }
        ensures read { IsValueText result.now }
    {
        let outer = Declared {
            items: self.outer.declarations.as_slice(),
        };
        outer.value_or_none(prefix)
    }

    // The value of a prefix.
    fn space_of(&self, prefix: &str) -> &'a str
        ensures value { value_in (chars result.now) ≡ space_of (chars prefix.now) (scope_in self.now) }
        ensures read { IsValueText result.now }
    {
        match bound_space(prefix) {
            Some(space) => space,
            None => self.declared_space(prefix),
        }
    }

    // Whether a name with this prefix has a namespace, or no prefix.
    fn is_declared(&self, prefix: &str) -> bool
        ensures { result ≡ (is_empty (chars prefix.now) || not (is_empty (space_of (chars prefix.now) (scope_in self.now)))) }
    {
        is_empty(prefix) || !is_empty_value(self.space_of(prefix))
    }

    // The namespace name of an attribute's name: the default is not for attributes.
    fn attribute_space(&self, prefix: &str) -> &'a str
        ensures value { value_in (chars result.now) ≡ (if is_empty (chars prefix.now) then [] else space_of (chars prefix.now) (scope_in self.now)) }
        ensures read { IsValueText result.now }
    {
        if is_empty(prefix) {
            ""
        } else {
            self.space_of(prefix)
        }
    }

    // Whether two attributes have one expanded name.
    fn are_same(&self, a: Attribute<'a>, b: Attribute<'a>) -> bool
        ensures { result ≡ same_expanded (attribute_name (scope_in self.now) (attribute_in a.entry).name) (attribute_name (scope_in self.now) (attribute_in b.entry).name) }
    {
        same(a.local, b.local)
            && same_values(
                self.attribute_space(a.prefix),
                self.attribute_space(b.prefix),
            )
    }

    // Whether no other attribute has the expanded name of this one.
    fn none_is(&self, a: Attribute<'a>, others: Attributes<'a>) -> bool
        ensures { result ≡ none_is (attribute_name (scope_in self.now) (attribute_in a.entry).name) (names_in (scope_in self.now) (attributes_left others.entry)) }
    {
        let mut rest = others;
        'others: loop {
            match rest.first() {
                Some((other, behind)) => {
                    if self.are_same(a, other) {
                        return false;
                    }
                    rest = behind;
                }
                None => return true,
            }
        }
    }

    // Whether the declarations among attributes are sound, their names declared, and no two of one expanded name: "Reserved Prefixes and
    // Namespace Names", "No Prefix Undeclaring", "Prefix Declared", "Attributes Unique".
    fn has_sound_attributes(&self, attributes: Attributes<'a>) -> bool
        ensures { result ≡ attributes_soundly (scope_in self.now) (attributes_left attributes.entry) }
    {
        let mut rest = attributes;
        'attributes: loop {
            match rest.first() {
                Some((a, behind)) => {
                    if !self.is_sound_attribute(a, behind) {
                        return false;
                    }
                    rest = behind;
                }
                None => return true,
            }
        }
    }

    // Whether an attribute is, before those behind it.
    fn is_sound_attribute(&self, a: Attribute<'a>, behind: Attributes<'a>) -> bool
        ensures { result ≡ attribute_soundly (scope_in self.now) (attribute_in a.entry) (attributes_left behind.entry) }
    {
        is_sound_declaration(a) && self.is_declared(a.prefix) && self.none_is(a, behind)
    }

    // Whether the name of the tag is sound.
    fn has_sound_name(&self) -> bool
        ensures { result ≡ name_soundly (tags_around self.now.outer.now) (tag_in self.now.tag) }
    {
        let (prefix, _) = name_parts(self.tag.name);
        !is(prefix, "xmlns") && self.is_declared(prefix)
    }

    // The same as `is_sound`, by walks over the tag's text.
    fn is_sound_by_text(&self) -> bool
        ensures { result ≡ is_sound (tags_around self.now.outer.now) (tag_in self.now.tag) }
    {
        self.has_sound_name() && self.has_sound_attributes(Attributes::of(self.tag.attributes))
    }

    // Whether the tag's names and declarations are sound: Namespaces in XML 1.0. It reads the attributes into a table, as far as there is
    // memory for one.
    pub(crate) fn is_sound(&self) -> bool
        ensures { result ≡ is_sound (tags_around self.now.outer.now) (tag_in self.now.tag) }
    {
        let attributes = Attributes::of(self.tag.attributes);
        match gather_attributes(*self.outer.declarations.allocator(), attributes) {
            Ok(table) => {
                let known = Known {
                    scope: *self,
                    table: table.as_slice(),
                };
                known.is_sound()
            }
            Err(AllocError) => self.is_sound_by_text(),
        }
    }
}
