//! Elements that hold base64 (XML Signature 1.1, section 4.3; EN 319 132-1, clause 5.1.3).

ghost use Rattle.std.specs.Prelude.{◌≡◌, IfOk, IfSome, OnOk};
ghost use Rattle.base64_texts.specs.Answers.{Decodes};
ghost use Rattle.base64_texts.specs.Readings.{read_on};
ghost use Rattle.doc_spans.specs.Pieces.{characters_in};
ghost use Rattle.doc_spans.specs.Seen.{Has, document_in};
ghost use Rattle.signature_elements.specs.Standing.{spot_of, spot_or_none, IsThere};
ghost use Rattle.signature_model.specs.Parts.{octets_or_none};
ghost use Rattle.signature_model.specs.Spots.{text_in};

use base64_texts::{Base64Fault, Decoder};
use doc_spans::{Doc, NodeId, Piece};
use signature_elements::texts;
use std::alloc::Global;
use xa_io::{Octs, OutOfMemory};

// The octets that an element's text spells, where white space is skipped.
pub(crate) fn decode(alloc: Global, doc: Doc<'_>, node: NodeId) -> Result<Octs, Base64Fault>
    requires { Has doc node }
    ensures { Decodes (text_in (document_in doc.entry) (spot_of doc.entry node)) result }
{
    let mut decoder = Decoder::new(alloc);
    for piece in texts(doc, node) {
        let Ok(()) = push_piece(&mut decoder, piece) else {
            return Err(Base64Fault::OutOfMemory);
        };
    }
    decoder.finish()
}

fn push_piece(decoder: &mut Decoder, piece: Piece<'_>) -> Result<(), OutOfMemory>
    ensures { OnOk result (decoder.new ≡ read_on decoder.old (characters_in piece.entry)) }
{
    match piece {
        Piece::Run(text) => decoder.push(text),
        Piece::One(c) => decoder.push_char(c),
    }
}

/// The octets that the base64 text of an element spells, where white space is skipped: none where there is no element, or where its text
/// isn't base64.
pub fn octets_or_none(
    alloc: Global,
    doc: Doc<'_>,
    node: Option<NodeId>,
) -> Result<Octs, OutOfMemory>
    requires { IfSome node (IsThere doc) }
    ensures { IfOk result (λ octets. octets ≡ octets_or_none (document_in doc.entry) (spot_or_none doc.entry node)) }
{
    let Some(node) = node else {
        return Ok(Octs::new(alloc));
    };
    match decode(alloc, doc, node) {
        Ok(octets) => Ok(octets),
        Err(Base64Fault::NotBase64 { .. }) => Ok(Octs::new(alloc)),
        Err(Base64Fault::OutOfMemory) => Err(OutOfMemory),
    }
}
