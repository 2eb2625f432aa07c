//! Whether a tag's attributes are sound, over a table of them, so that each is read once.

ghost use Rattle.std.specs.Prelude.{◌≡◌, ◌||◌, [], not, if◌then◌else◌, map, IfOk, IfSome, option_map};
ghost use Rattle.std.specs.Str.{chars};
ghost use Rattle.document_model.specs.Characters.{is_empty};
ghost use Rattle.document_model.specs.Names.{same_expanded};
ghost use Rattle.document_model.specs.Scopes.{declared_space, declared_value, space_of, attribute_name, none_is, is_sound};
ghost use Rattle.xml_items.specs.Found.{value_in, IsValueText};
ghost use Rattle.xml_items.specs.Attributes.{attribute_in, attributes_left};

use crate::scopes::{bound_space, declares, is_sound_declaration};
use crate::soundness::Scope;
use std::alloc::{AllocError, Global};
use xml_items::attribute_walk::{Attribute, Attributes};
use xml_items::names::name_parts;
use xml_items::texts::{is, is_empty, same};
use xml_items::value_texts::{is_empty_value, same_values};

// Reads attributes into a table.
pub(crate) fn gather_attributes<'a>(
    alloc: Global,
    attributes: Attributes<'a>,
) -> Result<Vec<Attribute<'a>>, AllocError>
    ensures { IfOk result (λ table. map attribute_in table.items ≡ attributes_left attributes.entry) }
{
    let mut table = Vec::new(alloc);
    let mut rest = attributes;
    'attributes: loop {
        match rest.first() {
            Some((a, behind)) => {
                table.push(a)?;
                rest = behind;
            }
            None => return Ok(table),
        }
    }
}

// The value of the first declaration of a prefix, as it stands between its quotes.
fn declared_among<'a>(prefix: &str, attributes: &[Attribute<'a>]) -> Option<&'a str>
    ensures value { declared_value (chars prefix.now) (map attribute_in attributes.now) ≡ option_map (λ v. value_in (chars v.now)) result }
    ensures read { IfSome result (λ v. IsValueText v.now) }
{
    let mut rest = attributes;
    'attributes: while let [a, behind @ ..] = rest {
        if declares(prefix, *a) {
            return Some(a.value);
        }
        rest = behind;
    }
    None
}

// A tag in its scope, with the table of its attributes.
#[derive(Clone, Copy)]
pub(crate) struct Known<'t, 's, 'a> {
    pub(crate) scope: Scope<'s, 'a>,
    pub(crate) table: &'t [Attribute<'a>],
}

impl<'t, 's, 'a> Known<'t, 's, 'a> {
    ghost use Rattle.doc_spans.specs.OpenTags.{tag_in};
    ghost use Rattle.doc_spans.specs.Scopes.{tags_around};
    ghost use Rattle.doc_spans.specs.ScopesIn.{scope_in, names_in, attribute_soundly, attributes_soundly, name_soundly};

    // The value of a prefix by the declarations; the text of an empty value where there is none.
    fn declared_space(&self, prefix: &str) -> &'a str
        requires { map attribute_in self.now.table.now ≡ (tag_in self.now.scope.tag).attributes }
        ensures value { value_in (chars result.now) ≡ declared_space (chars prefix.now) (scope_in self.now.scope) }
        ensures read { IsValueText result.now }
    {
        match declared_among(prefix, self.table) {
            Some(value) => value,
            None => self.scope.declared_outside(prefix),
        }
    }

    // The value of a prefix.
    fn space_of(&self, prefix: &str) -> &'a str
        requires { map attribute_in self.now.table.now ≡ (tag_in self.now.scope.tag).attributes }
        ensures value { value_in (chars result.now) ≡ space_of (chars prefix.now) (scope_in self.now.scope) }
        ensures read { IsValueText result.now }
    {
        match bound_space(prefix) {
            Some(space) => space,
            None => self.declared_space(prefix),
        }
    }

    // Whether a name with this prefix has a namespace, or no prefix.
    fn is_declared(&self, prefix: &str) -> bool
        requires { map attribute_in self.now.table.now ≡ (tag_in self.now.scope.tag).attributes }
        ensures { result ≡ (is_empty (chars prefix.now) || not (is_empty (space_of (chars prefix.now) (scope_in self.now.scope)))) }
    {
        is_empty(prefix) || !is_empty_value(self.space_of(prefix))
    }

    // The namespace name of an attribute's name: the default is not for attributes.
    fn attribute_space(&self, prefix: &str) -> &'a str
        requires { map attribute_in self.now.table.now ≡ (tag_in self.now.scope.tag).attributes }
        ensures value { value_in (chars result.now) ≡ (if is_empty (chars prefix.now) then [] else space_of (chars prefix.now) (scope_in self.now.scope)) }
        ensures read { IsValueText result.now }
    {
        if is_empty(prefix) {
            ""
        } else {
            self.space_of(prefix)
        }
    }

    // Whether two attributes have one expanded name.
    fn are_same(&self, a: Attribute<'a>, b: Attribute<'a>) -> bool
        requires { map attribute_in self.now.table.now ≡ (tag_in self.now.scope.tag).attributes }
        ensures { result ≡ same_expanded (attribute_name (scope_in self.now.scope) (attribute_in a.entry).name) (attribute_name (scope_in self.now.scope) (attribute_in b.entry).name) }
    {
        same(a.local, b.local)
            && same_values(
                self.attribute_space(a.prefix),
                self.attribute_space(b.prefix),
            )
    }

    // Whether no other attribute has the expanded name of this one.
    fn none_is(&self, a: Attribute<'a>, others: &[Attribute<'a>]) -> bool
        requires { map attribute_in self.now.table.now ≡ (tag_in self.now.scope.tag).attributes }
        ensures { result ≡ none_is (attribute_name (scope_in self.now.scope) (attribute_in a.entry).name) (names_in (scope_in self.now.scope) (map attribute_in others.now)) }
    {
        let mut rest = others;
        'others: while let [other, behind @ ..] = rest {
            if self.are_same(a, *other) {
                return false;
            }
            rest = behind;
        }
        true
    }

    // Whether an attribute is sound, before those behind it.
    fn is_sound_attribute(&self, a: Attribute<'a>, behind: &[Attribute<'a>]) -> bool
        requires { map attribute_in self.now.table.now ≡ (tag_in self.now.scope.tag).attributes }
        ensures { result ≡ attribute_soundly (scope_in self.now.scope) (attribute_in a.entry) (map attribute_in behind.now) }
    {
        is_sound_declaration(a) && self.is_declared(a.prefix) && self.none_is(a, behind)
    }

    // Whether all attributes are.
    fn has_sound_attributes(&self, attributes: &[Attribute<'a>]) -> bool
        requires { map attribute_in self.now.table.now ≡ (tag_in self.now.scope.tag).attributes }
        ensures { result ≡ attributes_soundly (scope_in self.now.scope) (map attribute_in attributes.now) }
    {
        let mut rest = attributes;
        'attributes: while let [a, behind @ ..] = rest {
            if !self.is_sound_attribute(*a, behind) {
                return false;
            }
            rest = behind;
        }
        true
    }

    // Whether the name of the tag is sound.
    fn has_sound_name(&self) -> bool
        requires { map attribute_in self.now.table.now ≡ (tag_in self.now.scope.tag).attributes }
        ensures { result ≡ name_soundly (tags_around self.now.scope.outer.now) (tag_in self.now.scope.tag) }
    {
        let (prefix, _) = name_parts(self.scope.tag.name);
        !is(prefix, "xmlns") && self.is_declared(prefix)
    }

    // Whether the tag's names and declarations are sound.
    pub(crate) fn is_sound(&self) -> bool
        requires { map attribute_in self.now.table.now ≡ (tag_in self.now.scope.tag).attributes }
        ensures { result ≡ is_sound (tags_around self.now.scope.outer.now) (tag_in self.now.scope.tag) }
    {
        self.has_sound_name() && self.has_sound_attributes(self.table)
    }
}
