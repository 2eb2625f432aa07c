//! The text that an element holds, beside the elements in it.

ghost use Rattle.std.specs.Prelude.{◌≡◌, ◌++◌, ◌<◌, [], not, length, MatchOption};
ghost use Rattle.std.specs.List.{All, list_all};
ghost use Rattle.document_model.specs.Characters.{is_white, is_empty};
ghost use Rattle.doc_spans.specs.Pieces.{characters_in, characters_left};
ghost use Rattle.doc_spans.specs.Rest.{rest};
ghost use Rattle.doc_spans.specs.Seen.{Has, document_in, path_in, shown_in};
ghost use Rattle.signature_model.specs.Parts.{is_blank};
ghost use Rattle.signature_model.specs.Spots.{held_at, has_stray_text, is_text_alone, text_in};
ghost use Rattle.signature_elements.specs.Standing.{spot_of};
ghost use Rattle.signature_elements.specs.Holding.{is_stray_at, is_text_at, text_at};
ghost use Rattle.signature_elements.specs.TextsLeft.{text_left};

use crate::text_pieces::TextPieces;
use doc_spans::{Doc, Kind, NodeId, Piece, Pieces};
use xml_items::classes::{Class, all, has};

/// Whether a node holds text that isn't white space, beside the elements in it.
pub fn has_stray_text(doc: Doc<'_>, node: NodeId) -> bool
    requires { Has doc node }
    ensures { result ≡ has_stray_text (held_at (document_in doc.entry) (path_in doc.entry node)) }
{
    for child in doc.children(node) {
        if is_stray(doc, child) {
            return true;
        }
    }
    false
}

/// Whether a node holds nothing but text.
pub fn is_text_alone(doc: Doc<'_>, node: NodeId) -> bool
    requires { Has doc node }
    ensures { result ≡ is_text_alone (held_at (document_in doc.entry) (path_in doc.entry node)) }
{
    for child in doc.children(node) {
        if !is_text(doc, child) {
            return false;
        }
    }
    true
}

/// Whether the text that an element holds is empty, or white space alone.
pub fn is_blank(doc: Doc<'_>, node: NodeId) -> bool
    requires { Has doc node }
    ensures { result ≡ is_blank (document_in doc.entry) (spot_of doc.entry node) }
{
    !has_stray_text(doc, node)
}

// Whether a node is text.
fn is_text(doc: Doc<'_>, node: NodeId) -> bool
    requires { Has doc node }
    ensures { result ≡ is_text_at (document_in doc.entry) (path_in doc.entry node) }
{
    matches!(doc.kind(node), Kind::Text)
}

// Whether a node is text that isn't white space.
fn is_stray(doc: Doc<'_>, node: NodeId) -> bool
    requires { Has doc node }
    ensures { result ≡ is_stray_at (document_in doc.entry) (path_in doc.entry node) }
{
    !is_white(text_of(doc, node))
}

// The characters of a node that is text; none of another node.
pub(crate) fn text_of<'a>(doc: Doc<'a>, node: NodeId) -> Pieces<'a>
    requires { Has doc node }
    ensures { characters_left result ≡ text_at (document_in doc.entry) (path_in doc.entry node) }
{
    match doc.kind(node) {
        Kind::Text => doc.text_pieces(node),
        _ => Pieces::of(""),
    }
}

// Whether all characters are white space.
fn is_white(pieces: Pieces<'_>) -> bool
    ensures { result ≡ list_all is_white (characters_left pieces.entry) }
{
    for piece in pieces {
        if !is_white_piece(piece) {
            return false;
        }
    }
    true
}

fn is_white_piece(piece: Piece<'_>) -> bool
    ensures { result ≡ list_all is_white (characters_in piece.entry) }
{
    match piece {
        Piece::Run(text) => all(text, Class::White),
        Piece::One(c) => has(Class::White, c),
    }
}

/// The characters of the text that a node holds, beside the elements in it (its text nodes, joined): none where it isn't an element.
pub fn texts<'a>(doc: Doc<'a>, node: NodeId) -> TextPieces<'a>
    requires { Has doc node }
    ensures { text_left result ≡ text_in (document_in doc.entry) (spot_of doc.entry node) }
{
    TextPieces::of(doc, node)
}
