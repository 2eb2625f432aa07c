//! Characters that come in pieces, as one text.

ghost use Rattle.std.specs.Prelude.{◌≡◌, ◌++◌, ◌∷◌, [], IfOk, OnOk, string_bytes, codes};
ghost use Rattle.std.specs.Str.{chars};
ghost use Rattle.doc_spans.specs.Pieces.{characters_in, characters_left};

use doc_spans::{Piece, Pieces};
use std::alloc::Global;
use xa_io::OutOfMemory;

/// The characters of all pieces.
pub fn gathered(alloc: Global, pieces: Pieces<'_>) -> Result<String, OutOfMemory>
    ensures { IfOk result (λ text. chars (string_bytes text) ≡ characters_left pieces.entry) }
{
    let mut text = String::new(alloc);
    push_pieces(&mut text, pieces)?;
    Ok(text)
}

/// `#` and an identifier: the URI of the element that has it, in the same document (XML Signature 1.1, section 4.4.3.2).
pub fn fragment(alloc: Global, identifier: Pieces<'_>) -> Result<String, OutOfMemory>
    ensures { IfOk result (λ text. chars (string_bytes text) ≡ codes "#" ++ characters_left identifier.entry) }
{
    let mut text = String::new(alloc);
    push_char(&mut text, '#')?;
    push_pieces(&mut text, identifier)?;
    Ok(text)
}

// Appends the characters of all pieces.
fn push_pieces(text: &mut String, pieces: Pieces<'_>) -> Result<(), OutOfMemory>
    ensures { OnOk result (chars (string_bytes text.new) ≡ chars (string_bytes text.old) ++ characters_left pieces.entry) }
{
    for piece in pieces {
        push_piece(text, piece)?;
    }
    Ok(())
}

// Appends the characters of a piece.
fn push_piece(text: &mut String, piece: Piece<'_>) -> Result<(), OutOfMemory>
    ensures { OnOk result (chars (string_bytes text.new) ≡ chars (string_bytes text.old) ++ characters_in piece.entry) }
{
    match piece {
        Piece::Run(run) => push_run(text, run),
        Piece::One(c) => push_char(text, c),
    }
}

fn push_run(text: &mut String, run: &str) -> Result<(), OutOfMemory>
    ensures { OnOk result (chars (string_bytes text.new) ≡ chars (string_bytes text.old) ++ chars run.now) }
{
    match text.push_str(run) {
        Ok(()) => Ok(()),
        Err(_) => Err(OutOfMemory),
    }
}

fn push_char(text: &mut String, c: char) -> Result<(), OutOfMemory>
    ensures { OnOk result (chars (string_bytes text.new) ≡ chars (string_bytes text.old) ++ c ∷ []) }
{
    match text.push(c) {
        Ok(()) => Ok(()),
        Err(_) => Err(OutOfMemory),
    }
}
