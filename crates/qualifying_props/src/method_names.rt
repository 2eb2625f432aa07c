//! The name of the signature method (XML Signature 1.1, section 4.4.2).

ghost use Rattle.std.specs.Prelude.{◌≡◌, ◌∷◌, ◌++◌, [], IfOk, OnOk, string_bytes};
ghost use Rattle.std.specs.Str.{chars};
ghost use Rattle.doc_spans.specs.Pieces.{characters_in, characters_left};
ghost use Rattle.doc_spans.specs.Seen.{document_in};
ghost use Rattle.signature_elements.specs.Standing.{spot_of, IsThere};
ghost use Rattle.signature_model.specs.Parts.{signature_method};
ghost use Rattle.qualifying_props.specs.PartsOf.{name_in};

use doc_spans::{Doc, NodeId, Piece, Pieces};
use signature_elements::attribute;
use signature_parts::signature_method;
use std::alloc::Global;
use xa_io::OutOfMemory;

// The name of the signature method; empty where there is none.
pub(crate) fn method_name(
    alloc: Global,
    doc: Doc<'_>,
    signature: NodeId,
) -> Result<String, OutOfMemory>
    requires { IsThere doc signature }
    ensures { IfOk result (λ name. chars (string_bytes name) ≡ name_in (signature_method (document_in doc.entry) (spot_of doc.entry signature))) }
{
    let Some(method) = signature_method(doc, signature) else {
        return Ok(String::new(alloc));
    };
    let Some(name) = attribute(doc, method, "Algorithm") else {
        return Ok(String::new(alloc));
    };
    text_of(alloc, name)
}

fn text_of(alloc: Global, pieces: Pieces<'_>) -> Result<String, OutOfMemory>
    ensures { IfOk result (λ text. chars (string_bytes text) ≡ characters_left pieces.entry) }
{
    let mut text = String::new(alloc);
    for piece in pieces {
        push_piece(&mut text, piece)?;
    }
    Ok(text)
}

fn push_piece(text: &mut String, piece: Piece<'_>) -> Result<(), OutOfMemory>
    ensures { OnOk result (chars (string_bytes text.new) ≡ chars (string_bytes text.old) ++ characters_in piece.entry) }
{
    match piece {
        Piece::Run(run) => push_run(text, run),
        Piece::One(c) => push_one(text, c),
    }
}

fn push_run(text: &mut String, run: &str) -> Result<(), OutOfMemory>
    ensures { OnOk result (chars (string_bytes text.new) ≡ chars (string_bytes text.old) ++ chars run.now) }
{
    match text.push_str(run) {
        Ok(()) => Ok(()),
        Err(_) => Err(OutOfMemory),
    }
}

fn push_one(text: &mut String, c: char) -> Result<(), OutOfMemory>
    ensures { OnOk result (chars (string_bytes text.new) ≡ chars (string_bytes text.old) ++ c ∷ []) }
{
    match text.push(c) {
        Ok(()) => Ok(()),
        Err(_) => Err(OutOfMemory),
    }
}
