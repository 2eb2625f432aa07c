//! Declarations, and what a prefix is bound to by them.

ghost use Rattle.std.specs.Prelude.{◌≡◌, option_map, IfSome};
ghost use Rattle.std.specs.Str.{chars};
ghost use Rattle.document_model.specs.Canonical.{rendered_value};
ghost use Rattle.xml_items.specs.Found.{value_in, IsValueText};
ghost use Rattle.doc_spans.specs.Scoped.{declared_in, space_in};

use crate::scopes::bound_space;
use xml_items::texts::same;

/// A prefix, empty for the default, and its value, as it stands between the quotes: Namespaces in XML 1.0, "Declaring Namespaces".
#[derive(Clone, Copy)]
pub struct Declaration<'a> {
    /// The prefix.
    pub prefix: &'a str,
    /// The value.
    pub value: &'a str,
    ghost read: { IsValueText value.now },
}

/// Declarations, of which the last one is the nearest.
#[derive(Clone, Copy)]
pub struct Declared<'s, 'a> {
    /// The declarations.
    pub items: &'s [Declaration<'a>],
}

impl<'s, 'a> Declared<'s, 'a> {
    ghost use Rattle.doc_spans.specs.Looked.{declared};

    /// The value of the nearest declaration of a prefix.
    pub fn value_of(&self, prefix: &str) -> Option<&'a str>
        ensures value { declared_in (chars prefix.now) (declared self.now) ≡ option_map (λ v. value_in (chars v.now)) result }
        ensures read { IfSome result (λ v. IsValueText v.now) }
    {
        let mut left = self.items.len();
        'declarations: while left > 0 {
            left -= 1;
            let declaration = self.items[left];
            if same(declaration.prefix, prefix) {
                return Some(declaration.value);
            }
        }
        None
    }

    /// The same; the text of an empty value where there is none.
    pub fn value_or_none(&self, prefix: &str) -> &'a str
        ensures value { value_in (chars result.now) ≡ rendered_value (chars prefix.now) (declared self.now) }
        ensures read { IsValueText result.now }
    {
        match self.value_of(prefix) {
            Some(value) => value,
            None => "",
        }
    }

    /// The namespace name of a prefix: Namespaces in XML 1.0, "Namespace Scoping".
    pub fn space_of(&self, prefix: &str) -> &'a str
        ensures value { value_in (chars result.now) ≡ space_in (chars prefix.now) (declared self.now) }
        ensures read { IsValueText result.now }
    {
        match bound_space(prefix) {
            Some(space) => space,
            None => self.value_or_none(prefix),
        }
    }
}
