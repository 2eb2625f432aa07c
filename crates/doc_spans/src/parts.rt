//! The parts of a text, as its items give them.

ghost use Rattle.std.specs.Prelude.{◌≡◌};
ghost use Rattle.doc_spans.specs.Texts.{IsPartOfText, text_added_by};
ghost use Rattle.doc_spans.specs.TextParts.{IsScalarFound, IsSomePart, part_in, part_size, section_size};
ghost use Rattle.xml_items.specs.Items.{item_in};

use xml_items::items::Found;

// A part of a text: characters that stand so in the source, a character that doesn't, or what a CDATA section holds.
#[derive(Clone, Copy)]
pub(crate) enum Part<'a> {
    Literal(&'a str),
    Decoded(char),
    Section(&'a str),
}

// What an item of a text adds to it.
pub(crate) fn part_of<'a>(found: Found<'a>) -> Part<'a>
    requires text { IsPartOfText (item_in found) }
    requires scalar { IsScalarFound found }
    ensures size { part_size result ≡ section_size found.entry }
    ensures some { IsSomePart result }
    ensures added { part_in result ≡ text_added_by (item_in found.entry) }
{
    match found {
        Found::Character(c) => Part::Decoded(c),
        Found::Reference(code) => match char::from_u32(code) {
            Some(c) => Part::Decoded(c),
            None => unreachable!(),
        },
        Found::Cdata(text) => Part::Section(text),
        _ => unreachable!(),
    }
}
