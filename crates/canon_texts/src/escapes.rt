//! Characters as they are written, in runs between those that are escaped.

ghost use Rattle.std.specs.Prelude.{◌≡◌, ◌<◌, ◌≤◌, ◌++◌, length, take, drop, flat_map, OnOk, OnErr, IfSome, IfNone, encode_utf8_all};
ghost use Rattle.std.specs.Str.{chars};
ghost use Rattle.document_model.specs.Canonical.{text_character, value_character};
ghost use Rattle.doc_spans.specs.Pieces.{characters_left};
ghost use Rattle.canon_texts.specs.WrittenAt.{written_at};
ghost use Rattle.xml_items.specs.Runs.{is_unescaped};
ghost use Rattle.httparse.specs.Pieces.{AllPassBetween};

use crate::places::{Place, reference};
use doc_spans::{Piece, Pieces};
use xa_io::{Octs, OutOfMemory};
use xml_items::lanes::{LANES, unescaped_lanes};

/// Appends characters as the text of an element, escaped (Canonical XML 1.0, section 2.3, "Text Nodes"). After `OutOfMemory` a part of
/// it may stand behind what stood before.
pub fn put_text(out: &mut Octs, pieces: Pieces<'_>) -> Result<(), OutOfMemory>
    ensures ok { OnOk result (out.new ≡ out.old ++ encode_utf8_all (flat_map text_character (characters_left pieces.entry))) }
    ensures err { OnErr result (take (length out.old) out.new ≡ out.old) }
{
    put_pieces(out, Place::Text, pieces)
}

/// Appends characters as the value of an attribute or a namespace declaration, escaped and without the quotes (Canonical XML 1.0,
/// section 2.3, "Attribute Nodes"). After `OutOfMemory` a part of it may stand behind what stood before.
pub fn put_value(out: &mut Octs, pieces: Pieces<'_>) -> Result<(), OutOfMemory>
    ensures ok { OnOk result (out.new ≡ out.old ++ encode_utf8_all (flat_map value_character (characters_left pieces.entry))) }
    ensures err { OnErr result (take (length out.old) out.new ≡ out.old) }
{
    put_pieces(out, Place::Value, pieces)
}

// Appends characters as they are written at a place.
#[tactic(auto, using(crate::proofs::Kept::kept_through, crate::proofs::Kept::kept_behind))]
pub(crate) fn put_pieces(
    out: &mut Octs,
    place: Place,
    pieces: Pieces<'_>,
) -> Result<(), OutOfMemory>
    ensures ok { OnOk result (out.new ≡ out.old ++ encode_utf8_all (flat_map (written_at place) (characters_left pieces.entry))) }
    ensures err { OnErr result (take (length out.old) out.new ≡ out.old) }
{
    for piece in pieces {
        match piece {
            Piece::Run(text) => put_run(out, place, text)?,
            Piece::One(c) => {
                let mut room = [0u8; 4];
                put_run(out, place, c.encode_utf8(&mut room))?
            }
        }
    }
    Ok(())
}

fn put_run(out: &mut Octs, place: Place, text: &str) -> Result<(), OutOfMemory>
    ensures ok { OnOk result (out.new ≡ out.old ++ encode_utf8_all (flat_map (written_at place) (chars text.now))) }
    ensures err { OnErr result (take (length out.old) out.new ≡ out.old) }
{
    put_bytes(out, place, text.as_bytes())
}

#[tactic(auto, using(crate::proofs::Kept::kept_through, crate::proofs::Kept::kept_behind))]
fn put_bytes(out: &mut Octs, place: Place, bytes: &[u8]) -> Result<(), OutOfMemory>
    ensures ok { OnOk result (out.new ≡ out.old ++ flat_map (written_at place) bytes.now) }
    ensures err { OnErr result (take (length out.old) out.new ≡ out.old) }
{
    let mut rest = bytes;
    while let Some(at) = first_reference(place, rest) {
        let (front, behind) = rest.split_at(at);
        out.push_all(front)?;
        put_byte(out, place, behind[0])?;
        rest = &behind[1..];
    }
    out.push_all(rest)
}

fn put_byte(out: &mut Octs, place: Place, byte: u8) -> Result<(), OutOfMemory>
    ensures ok { OnOk result (out.new ≡ out.old ++ written_at place byte) }
    ensures err { OnErr result (take (length out.old) out.new ≡ out.old) }
{
    match reference(place, byte) {
        Some(text) => out.push_all(text),
        None => out.push_all(&[byte]),
    }
}

// The place of the first byte that isn't written as it is.
fn first_reference(place: Place, bytes: &[u8]) -> Option<usize>
    ensures some { IfSome result (λ at. (at < length bytes.now) × (flat_map (written_at place) bytes.now ≡ take at bytes.now ++ flat_map (written_at place) (drop at bytes.now))) }
    ensures none { IfNone result (flat_map (written_at place) bytes.now ≡ bytes.now) }
{
    for at in plain_front(place, bytes)..bytes.len() {
        match reference(place, bytes[at]) {
            Some(_) => return Some(at),
            None => {}
        }
    }
    None
}

// How many bytes at the front are known to be written as they are, by many at once.
fn plain_front(place: Place, bytes: &[u8]) -> usize
    ensures bound { result ≤ length bytes.now }
    ensures same { flat_map (written_at place) bytes.now ≡ take result bytes.now ++ flat_map (written_at place) (drop result bytes.now) }
{
    match place {
        Place::Text => unescaped_front(bytes),
        _ => 0,
    }
}

fn unescaped_front(bytes: &[u8]) -> usize
    ensures bound { result ≤ length bytes.now }
    ensures pass { AllPassBetween is_unescaped bytes.now 0 result }
{
    let mut at = 0;
    'by_lanes: while bytes.len() - at >= LANES {
        let run = unescaped_lanes(bytes, at);
        if run < LANES {
            return at + run;
        }
        at += LANES;
    }
    at
}
