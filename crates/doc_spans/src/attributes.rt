//! The attributes of an element, one after another.

ghost use Rattle.std.specs.Prelude.{◌≡◌, [], is_some, IsTrue};
ghost use Rattle.std.specs.Str.{chars};
ghost use Rattle.xml_items.specs.Found.{read_attributes, IsNameText};

use crate::texts::Pieces;
use xml_items::tags::{MOST_ATTRIBUTES, pair_at};

/// An attribute or a namespace declaration.
#[derive(Clone, Copy)]
pub struct Attr<'a> {
    /// Its name, as it is written.
    pub name: &'a str,
    /// The characters of its value (XML 1.0, section 3.3.3).
    pub value: Pieces<'a>,
    ghost named: { IsNameText name.now },
}

// The attributes that are left, at most so many.
#[derive(Clone, Copy)]
pub struct Attrs<'a> {
    rest: &'a str,
    left: usize,
    ghost read: { IsTrue (is_some (read_attributes left (chars rest.now))) },
}

impl<'a> Attrs<'a> {
    ghost use Rattle.xml_items.specs.Found.{attributes_in, AreAttributesText};
    ghost use Rattle.doc_spans.specs.AttributesLeft.{attributes_left};

    // The attributes of a tag, by what stands behind its name.
    pub(crate) fn of(text: &'a str) -> Attrs<'a>
        requires { AreAttributesText text.now }
        ensures { attributes_left result ≡ attributes_in (chars text.now) }
    {
        Attrs {
            rest: text,
            left: MOST_ATTRIBUTES,
        }
    }

    // No attribute.
    pub(crate) fn none() -> Attrs<'a>
        ensures { attributes_left result ≡ [] }
    {
        Attrs { rest: "", left: 0 }
    }
}

impl<'a> Iterator for Attrs<'a> {
    type Item = Attr<'a>;

    ghost use Rattle.doc_spans.specs.AttributesLeft.{attribute_in, attributes_left};
    ghost use Rattle.std.specs.Iterator.{YieldsFirstBy, item_count};

    ghost next_gives = { YieldsFirstBy attribute_in attributes_left };

    ghost remaining = { item_count attributes_left };

    fn next(&mut self) -> Option<Attr<'a>> {
        let (pair, rest) = pair_at(self.rest)?;
        let attribute = Attr {
            name: pair.name,
            value: Pieces::of_value(pair.text),
        };
        *self = Attrs {
            rest,
            left: self.left - 1,
        };
        Some(attribute)
    }
}
