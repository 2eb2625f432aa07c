// The attributes of a tag, one after another, in a second pass over their text.
ghost use Rattle.std.specs.Prelude.{◌≡◌, ◌∷◌, ◌<◌, [], is_some, IsTrue};
ghost use Rattle.std.specs.Str.{chars};
ghost use Rattle.document_model.specs.Items.{value_of};
ghost use Rattle.xml_items.specs.Found.{read_attributes};

use crate::names::name_parts;
use crate::tags::{MOST_ATTRIBUTES, pair_at};

// An attribute or a declaration: the parts of its name, and its value as it stands between the quotes.
#[derive(Clone, Copy)]
pub struct Attribute<'a> {
    pub prefix: &'a str,
    pub local: &'a str,
    pub value: &'a str,
    ghost read: { IsTrue (is_some (value_of (chars value.now))) },
}

// The attributes that are left, at most so many.
#[derive(Clone, Copy)]
pub struct Attributes<'a> {
    rest: &'a str,
    left: usize,
    ghost read: { IsTrue (is_some (read_attributes left (chars rest.now))) },
}

impl<'a> Attributes<'a> {
    ghost use Rattle.std.specs.Prelude.{MatchOption, IfSome};
    ghost use Rattle.xml_items.specs.Found.{attributes_in, AreAttributesText};
    ghost use Rattle.xml_items.specs.Attributes.{attribute_in, attributes_left};

    // The attributes of a tag.
    pub fn of(text: &'a str) -> Attributes<'a>
        requires { AreAttributesText text.now }
        ensures { attributes_left result ≡ attributes_in (chars text.now) }
    {
        Attributes {
            rest: text,
            left: MOST_ATTRIBUTES,
        }
    }

    // The first attribute, and those behind it.
    pub fn first(self) -> Option<(Attribute<'a>, Attributes<'a>)>
        ensures first { MatchOption result (attributes_left self.entry ≡ []) (λ r. attributes_left self.entry ≡ attribute_in r.0 ∷ attributes_left r.1) }
        ensures fewer { IfSome result (λ r. r.1.left < self.entry.left) }
    {
        match pair_at(self.rest) {
            Some((pair, rest)) => {
                let (prefix, local) = name_parts(pair.name);
                let attribute = Attribute {
                    prefix,
                    local,
                    value: pair.text,
                };
                Some((
                    attribute,
                    Attributes {
                        rest,
                        left: self.left - 1,
                    },
                ))
            }
            None => None,
        }
    }
}
