//! Whether an attribute points to an identifier.

ghost use Rattle.std.specs.Prelude.{◌≡◌, ◌∷◌, [], MatchOption, option_map};
ghost use Rattle.document_model.specs.Characters.{◌is◌};
ghost use Rattle.doc_spans.specs.Pieces.{characters_left};
ghost use Rattle.signature_model.specs.Shape.{points_to};
ghost use Rattle.signature_model.specs.Vocabulary.{fragment};
ghost use Rattle.signature_elements.specs.Ahead.{ahead};

use crate::text_pieces::next_piece;
use doc_spans::{Piece, Pieces};
use xml_items::classes;

/// Whether a URI is `#` and the identifier of an element, where that has one; without a URI it isn't. An element without an identifier
/// is pointed to by each.
pub fn points_to(uri: Option<Pieces<'_>>, id: Option<Pieces<'_>>) -> bool
    ensures { result ≡ points_to (option_map characters_left uri.entry) (option_map characters_left id.entry) }
{
    match id {
        None => true,
        Some(id) => match uri {
            None => false,
            Some(uri) => is_fragment(uri, id),
        },
    }
}

// Whether some characters are `#` and others.
fn is_fragment(uri: Pieces<'_>, id: Pieces<'_>) -> bool
    ensures { result ≡ (characters_left uri.entry is fragment (characters_left id.entry)) }
{
    match Characters::of(uri).first() {
        Some((c, behind)) => c == '#' && same(behind, Characters::of(id)),
        None => false,
    }
}

// Whether the characters are the same.
fn same(a: Characters<'_>, b: Characters<'_>) -> bool
    ensures { result ≡ (ahead a.entry is ahead b.entry) }
{
    let mut x = a;
    let mut y = b;
    'characters: loop {
        match x.first() {
            Some((c, behind)) => match y.first() {
                Some((d, further)) => {
                    if c != d {
                        return false;
                    }
                    x = behind;
                    y = further;
                }
                None => return false,
            },
            None => return y.first().is_none(),
        }
    }
}

// Characters, one after another: those of a run, and then those of pieces.
#[derive(Clone, Copy)]
struct Characters<'a> {
    run: &'a str,
    pieces: Pieces<'a>,
}

impl<'a> Characters<'a> {
    fn of(pieces: Pieces<'a>) -> Characters<'a>
        ensures { ahead result ≡ characters_left pieces.entry }
    {
        Characters { run: "", pieces }
    }

    // The first one, and those behind it.
    fn first(self) -> Option<(char, Characters<'a>)>
        ensures { MatchOption result (ahead self.entry ≡ []) (λ r. ahead self.entry ≡ r.0 ∷ ahead r.1) }
    {
        match classes::first(self.run) {
            Some((c, run)) => {
                let pieces = self.pieces;
                Some((c, Characters { run, pieces }))
            }
            None => first_of(self.pieces),
        }
    }
}

// The first character of some pieces, and those behind it.
fn first_of<'a>(pieces: Pieces<'a>) -> Option<(char, Characters<'a>)>
    ensures { MatchOption result (characters_left pieces.entry ≡ []) (λ r. characters_left pieces.entry ≡ r.0 ∷ ahead r.1) }
{
    let mut pieces = pieces;
    match next_piece(&mut pieces)? {
        Piece::Run(text) => {
            let (c, run) = classes::first(text)?;
            Some((c, Characters { run, pieces }))
        }
        Piece::One(c) => Some((c, Characters { run: "", pieces })),
    }
}
