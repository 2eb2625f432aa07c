//! Texts whose characters are read in one of three ways.

ghost use Rattle.std.specs.Prelude.{◌≡◌, ◌++◌, ◌∷◌, ◌<◌, ◌≤◌, [], false, length, MatchOption, IfSome, IsTrue};
ghost use Rattle.std.specs.Str.{chars, IsUtf8};
ghost use Rattle.document_model.specs.Characters.{span, with_line_ends, is_empty};
ghost use Rattle.doc_spans.specs.ReadAs.{is_literal, is_readable};

use crate::texts::Piece;
use xml_items::classes::{Class, first, front};
use xml_items::value_texts::first_of_value;

// How the characters of a text are read.
#[derive(Clone, Copy)]
pub(crate) enum Reading {
    // As they stand.
    AsWritten,
    // Line ends are read as LF.
    LineEnds,
    // References are decoded, and white space is read as spaces.
    Value,
}

// A text that is read.
#[derive(Clone, Copy)]
pub(crate) struct Front<'a> {
    pub(crate) text: &'a str,
    pub(crate) reading: Reading,
    ghost readable: { IsTrue (is_readable reading (chars text.now)) },
}

impl<'a> Front<'a> {
    ghost use Rattle.doc_spans.specs.Pieces.{characters_in, front_left};

    // The first piece of its characters, and what is behind it.
    pub(crate) fn first(self) -> Option<(Piece<'a>, Front<'a>)>
        ensures first { MatchOption result (front_left self.entry ≡ []) (λ r. front_left self.entry ≡ characters_in r.0 ++ front_left r.1) }
        ensures shorter { IfSome result (λ r. length r.1.text.now < length self.entry.text.now) }
        ensures some { IfSome result (λ r. is_empty (characters_in r.0) ≡ false) }
    {
        let (run, behind) = literal_front(self.text, self.reading);
        let reading = self.reading;
        if !run.is_empty() {
            let front = Front {
                text: behind,
                reading,
            };
            return Some((Piece::Run(run), front));
        }
        match reading {
            Reading::AsWritten => None,
            Reading::LineEnds => {
                let (_, text) = first(behind)?;
                let front = Front {
                    text: behind_line_feed(text),
                    reading,
                };
                Some((Piece::One('\n'), front))
            }
            Reading::Value => {
                let (code, text) = first_of_value(self.text)?;
                match char::from_u32(code) {
                    Some(c) => Some((Piece::One(c), Front { text, reading })),
                    None => unreachable!(),
                }
            }
        }
    }
}

// The longest front of characters that are read as they stand, and what is behind it.
fn literal_front<'a>(text: &'a str, reading: Reading) -> (&'a str, &'a str)
    ensures split { span (is_literal reading) (chars text.now) ≡ (chars result.0.now, chars result.1.now) }
    ensures joined { result.0.now ++ result.1.now ≡ text.now }
    ensures front_utf8 { IsUtf8 result.0.now }
    ensures behind_utf8 { IsUtf8 result.1.now }
{
    match reading {
        Reading::AsWritten => (text, ""),
        Reading::LineEnds => front(text, Class::Except('\r')),
        Reading::Value => front(text, Class::InValue),
    }
}

// What is behind a line end, by what is behind its carriage return.
fn behind_line_feed(behind: &str) -> &str
    ensures line { with_line_ends (0xD ∷ chars behind.now) ≡ 0xA ∷ with_line_ends (chars result.now) }
    ensures shorter { length result.now ≤ length behind.now }
{
    match first(behind) {
        Some((c, rest)) => { if c == '\n' { rest } else { behind } }
        None => behind,
    }
}
