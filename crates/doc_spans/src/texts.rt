//! Decoded characters, in pieces of the source.

ghost use Rattle.std.specs.Prelude.{◌≡◌, ◌++◌, ◌<◌, ◌≤◌, ℕ, List, [], false, length, MatchOption, IfSome};
ghost use Rattle.std.specs.Str.{chars, IsUtf8};
ghost use Rattle.document_model.specs.Characters.{with_line_ends, is_empty, ◌is◌};
ghost use Rattle.xml_items.specs.Found.{value_in, IsValueText};
ghost use Rattle.doc_spans.specs.Pieces.{characters_left, characters_in, front_left, items_left, items_size, size_left};
ghost use Rattle.doc_spans.specs.Texts.{HoldText, text_between};

use crate::parts::Part;
use crate::readings::{Front, Reading};
use crate::text_items::TextItems;
use xml_items::classes::first;

/// A piece of decoded characters.
#[derive(Clone, Copy)]
pub enum Piece<'a> {
    /// Characters that stand so in the source, at least one.
    Run(&'a str),
    /// One character that doesn't stand so in the source.
    One(char),
}

/// Decoded characters, one piece after another. It takes no memory.
#[derive(Clone, Copy)]
pub struct Pieces<'a> {
    pub(crate) front: Front<'a>,
    pub(crate) items: TextItems<'a>,
}

impl<'a> Pieces<'a> {
    /// The characters of a text as they stand, without decoding.
    pub fn of(text: &'a str) -> Pieces<'a>
        ensures { characters_left result ≡ chars text.now }
    {
        let reading = Reading::AsWritten;
        Pieces::of_front(Front { text, reading })
    }

    // The characters of a text, with line ends read as LF.
    pub(crate) fn with_line_ends(text: &'a str) -> Pieces<'a>
        ensures { characters_left result ≡ with_line_ends (chars text.now) }
    {
        let reading = Reading::LineEnds;
        Pieces::of_front(Front { text, reading })
    }

    /// The characters of an attribute value, by what stands between its quotes (XML 1.0, section 3.3.3): references are decoded, and
    /// white space is read as spaces.
    pub fn of_value(text: &'a str) -> Pieces<'a>
        requires { IsValueText text.now }
        ensures { characters_left result ≡ value_in (chars text.now) }
    {
        let reading = Reading::Value;
        Pieces::of_front(Front { text, reading })
    }

    // The characters of a text node that stands from one place to another.
    pub(crate) fn of_items(bytes: &'a [u8], at: usize, end: usize) -> Pieces<'a>
        requires within { end ≤ length bytes.now }
        requires hold { ∥ HoldText bytes.now at end ∥₁ }
        ensures { characters_left result ≡ text_between bytes.now at end }
    {
        Pieces::of_rest(TextItems { bytes, at, end })
    }

    fn of_rest(items: TextItems<'a>) -> Pieces<'a>
        ensures characters { characters_left result ≡ items_left items.entry }
        ensures size { size_left result ≡ items_size items.entry }
    {
        let reading = Reading::AsWritten;
        let front = Front { text: "", reading };
        Pieces { front, items }
    }

    fn of_front(front: Front<'a>) -> Pieces<'a>
        ensures { characters_left result ≡ front_left front.entry }
    {
        let items = TextItems {
            bytes: &[],
            at: 0,
            end: 0,
        };
        Pieces { front, items }
    }

    /// The first piece, which has a character, and those behind it.
    pub fn first(self) -> Option<(Piece<'a>, Pieces<'a>)>
        ensures first { MatchOption result (characters_left self.entry ≡ []) (λ r. characters_left self.entry ≡ characters_in r.0 ++ characters_left r.1) }
        ensures shorter { IfSome result (λ r. size_left r.1 < size_left self.entry) }
        ensures some { IfSome result (λ r. is_empty (characters_in r.0) ≡ false) }
    {
        let mut pieces = self;
        'sections: loop {
            if let Some((piece, front)) = pieces.front.first() {
                let items = pieces.items;
                return Some((piece, Pieces { front, items }));
            }
            match pieces.items.first() {
                Some((part, items)) => match part {
                    Part::Literal(text) => return Some((Piece::Run(text), Pieces::of_rest(items))),
                    Part::Decoded(c) => return Some((Piece::One(c), Pieces::of_rest(items))),
                    Part::Section(text) => {
                        let reading = Reading::LineEnds;
                        pieces = Pieces {
                            front: Front { text, reading },
                            items,
                        };
                    }
                },
                None => return None,
            }
        }
    }

    /// Whether the characters are those of a text as it stands.
    pub fn same(&self, text: &str) -> bool
        ensures { result ≡ (characters_left self.now is chars text.now) }
    {
        let mut pieces = *self;
        let mut rest = text;
        'pieces: loop {
            match pieces.first() {
                Some((piece, behind)) => match behind_piece(rest, piece) {
                    Some(further) => {
                        pieces = behind;
                        rest = further;
                    }
                    None => return false,
                },
                None => return rest.is_empty(),
            }
        }
    }
}

impl<'a> Iterator for Pieces<'a> {
    type Item = Piece<'a>;

    ghost use Rattle.doc_spans.specs.Pieces.{GivesFirst, pieces_left};

    ghost next_gives = { GivesFirst };

    ghost remaining = { pieces_left };

    /// The next piece, as `first` gives it.
    fn next(&mut self) -> Option<Piece<'a>> {
        let (piece, behind) = self.first()?;
        *self = behind;
        Some(piece)
    }
}

// What is behind a piece, where a text begins with it.
fn behind_piece<'t>(text: &'t str, piece: Piece<'_>) -> Option<&'t str>
    ensures found { MatchOption result ((cs : List ℕ) → chars text.now ≡ characters_in piece.entry ++ cs → ⊥) (λ rest. chars text.now ≡ characters_in piece.entry ++ chars rest.now) }
    ensures utf8 { IfSome result (λ rest. IsUtf8 rest.now) }
{
    match piece {
        Piece::Run(run) => behind_run(text, run),
        Piece::One(c) => match first(text) {
            Some((d, rest)) if c == d => Some(rest),
            _ => None,
        },
    }
}

fn behind_run<'t>(text: &'t str, run: &str) -> Option<&'t str>
    ensures found { MatchOption result ((cs : List ℕ) → chars text.now ≡ chars run.now ++ cs → ⊥) (λ rest. chars text.now ≡ chars run.now ++ chars rest.now) }
    ensures utf8 { IfSome result (λ rest. IsUtf8 rest.now) }
{
    if !text.as_bytes().starts_with(run.as_bytes()) {
        return None;
    }
    let (_, rest) = text.split_at(run.len());
    Some(rest)
}
