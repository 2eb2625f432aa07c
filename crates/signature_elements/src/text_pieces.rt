//! The characters of the text that an element holds, piece by piece.

ghost use Rattle.std.specs.Prelude.{◌≡◌, ◌++◌, ◌<◌, false, [], not, length, MatchOption};
ghost use Rattle.std.specs.List.{All};
ghost use Rattle.document_model.specs.Characters.{is_empty};
ghost use Rattle.doc_spans.specs.Pieces.{characters_in, characters_left};
ghost use Rattle.doc_spans.specs.Rest.{rest};
ghost use Rattle.doc_spans.specs.Seen.{shown_in};

use crate::held_texts::text_of;
use doc_spans::{Children, Doc, NodeId, Piece, Pieces};
use xml_items::texts::is_empty;

/// The characters of an element's text nodes that are still to come, in pieces that aren't empty. It takes no memory.
#[derive(Drop)]
pub struct TextPieces<'a> {
    doc: Doc<'a>,
    pieces: Pieces<'a>,
    children: Children<'a>,
    ghost within: { All (λ k. k < length (shown_in doc).places) (rest children) },
}

impl<'a> TextPieces<'a> {
    ghost use Rattle.doc_spans.specs.Seen.{Has, document_in};
    ghost use Rattle.signature_model.specs.Spots.{text_in};
    ghost use Rattle.signature_elements.specs.Standing.{spot_of};
    ghost use Rattle.signature_elements.specs.TextsLeft.{text_left};

    /// Those of the text nodes in a node, joined; a node that isn't an element has none.
    pub fn of(doc: Doc<'a>, node: NodeId) -> TextPieces<'a>
        requires { Has doc node }
        ensures { text_left result ≡ text_in (document_in doc.entry) (spot_of doc.entry node) }
    {
        TextPieces {
            doc,
            pieces: Pieces::of(""),
            children: doc.children(node),
        }
    }
}

impl<'a> Iterator for TextPieces<'a> {
    type Item = Piece<'a>;

    ghost use Rattle.signature_elements.specs.TextsLeft.{GivesText, characters_count};

    ghost next_gives = { GivesText };

    ghost remaining = { characters_count };

    fn next(&mut self) -> Option<Piece<'a>> {
        'nodes: loop {
            if let Some(piece) = next_piece(&mut self.pieces) {
                return Some(piece);
            }
            let node = self.children.next()?;
            self.pieces = text_of(self.doc, node);
        }
    }
}

// The next piece that isn't empty.
pub(crate) fn next_piece<'a>(pieces: &mut Pieces<'a>) -> Option<Piece<'a>>
    ensures { MatchOption result ((characters_left pieces.old ≡ []) × (characters_left pieces.new ≡ [])) (λ piece. (characters_left pieces.old ≡ characters_in piece ++ characters_left pieces.new) × (is_empty (characters_in piece) ≡ false)) }
{
    'pieces: while let Some(piece) = pieces.next() {
        if has_characters(piece) {
            return Some(piece);
        }
    }
    None
}

fn has_characters(piece: Piece<'_>) -> bool
    ensures { result ≡ not (is_empty (characters_in piece.entry)) }
{
    match piece {
        Piece::Run(text) => !is_empty(text),
        Piece::One(_) => true,
    }
}
