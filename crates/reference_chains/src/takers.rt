//! What takes a text, one piece after another.

ghost use Rattle.std.specs.Prelude.{◌≡◌, ◌++◌, [], ℕ, List, OnOk, refl};
ghost use Rattle.doc_spans.specs.Pieces.{characters_in};

use base64_texts::{Decoder, Scanner};
use doc_spans::Piece;
use std::convert::Infallible;
use xa_io::OutOfMemory;

// Takes a text, piece by piece.
pub(crate) trait TakesText {
    // How it fails.
    type Fault;

    // What it knows behind more text.
    ghost after: { Self → List ℕ → Self };

    // It knows the same behind no text, and behind a text as behind its parts.
    ghost stays: { (taker : Self) → after taker [] ≡ taker };

    ghost joined: { (taker : Self) (xs ys : List ℕ) → after taker (xs ++ ys) ≡ after (after taker xs) ys };

    // Takes a piece.
    fn take(&mut self, piece: Piece<'_>) -> Result<(), Self::Fault>
        ensures { OnOk result (self.new ≡ after self.old (characters_in piece.entry)) };
}

impl TakesText for Scanner {
    ghost use Rattle.base64_texts.specs.Scans.{scan_on, scan_on-append};

    type Fault = Infallible;

    ghost after = { scan_on };

    ghost stays = { λ taker. refl };

    ghost joined = { scan_on-append };

    fn take(&mut self, piece: Piece<'_>) -> Result<(), Infallible> {
        match piece {
            Piece::Run(text) => self.push(text),
            Piece::One(c) => self.push_char(c),
        }
        Ok(())
    }
}

impl TakesText for Decoder {
    ghost use Rattle.base64_texts.specs.Readings.{read_on, read_on-append};

    type Fault = OutOfMemory;

    ghost after = { read_on };

    ghost stays = { λ taker. refl };

    ghost joined = { read_on-append };

    fn take(&mut self, piece: Piece<'_>) -> Result<(), OutOfMemory> {
        match piece {
            Piece::Run(text) => self.push(text),
            Piece::One(c) => self.push_char(c),
        }
    }
}
