//! Content that is put into an element of a document.

ghost use Rattle.std.specs.Prelude.{◌≡◌, ℕ, ◌<◌, ◌≤◌, ◌++◌, length, slice_index, Some, IfOk, OnOk, OnErr, option_map};
ghost use Rattle.document_model.specs.Insertion.{put_inside};
ghost use Rattle.doc_spans.specs.Shown.{kind_of};
ghost use Rattle.doc_spans.specs.Seen.{Has, bytes_in, path_in, node_in};
ghost use Rattle.insertions.specs.Placed.{last_place, first_place, placed_inside};

use crate::pieces::{Insertions, apply};
use doc_spans::{Doc, Kind, NodeId};
use std::alloc::Global;
use xa_io::{Octs, OutOfMemory};

// The place of the last `<` in front of a place.
fn last_opening(bytes: &[u8], end: u32) -> u32
    requires { end ≤ length bytes.now }
    ensures last { (k : ℕ) → k < end → slice_index bytes.now k ≡ 0x3C → k ≤ result }
    ensures here { (k : ℕ) → k < end → slice_index bytes.now k ≡ 0x3C → (result < end) × (slice_index bytes.now result ≡ 0x3C) }
{
    let mut at = end;
    while at > 0 {
        at -= 1;
        if bytes[at as usize] == b'<' {
            return at;
        }
    }
    0
}

/// Adds the pieces that put content last into an element: in front of its end tag, or between the tags that its empty tag is opened to. These
/// are `>`, the content and `<` in front of the `/`, and the element's name between `/` and `>`, so that white space before the `/` stays.
/// No piece may stand behind the first place at which it puts one. After `OutOfMemory` the pieces are as before.
pub fn inside(
    pieces: &mut Insertions,
    doc: Doc<'_>,
    element: NodeId,
    content: &[u8],
) -> Result<(), OutOfMemory>
    requires has { Has doc element }
    requires element { option_map kind_of (node_in doc element) ≡ Some Kind.Element }
    requires behind { last_place pieces.old ≤ first_place (placed_inside content.now (path_in doc element) (bytes_in doc)) }
    ensures ok { OnOk result (pieces.new ≡ pieces.old ++ placed_inside content.now (path_in doc.entry element) (bytes_in doc.entry)) }
    ensures err { OnErr result (pieces.new ≡ pieces.old) }
{
    let end = doc.span(element).end;
    if doc.start_tag(element).end == end {
        pieces.open(end, content, doc.name_text(element).as_bytes())
    } else {
        let at = last_opening(doc.bytes(), end);
        pieces.add(at, content)
    }
}

/// The bytes of a document with content put last into an element.
pub fn put(
    alloc: Global,
    doc: Doc<'_>,
    element: NodeId,
    content: &[u8],
) -> Result<Octs, OutOfMemory>
    requires has { Has doc element }
    requires element { option_map kind_of (node_in doc element) ≡ Some Kind.Element }
    ensures { IfOk result (λ new. new ≡ put_inside content.now (path_in doc.entry element) (bytes_in doc.entry)) }
{
    let mut pieces = Insertions::new(alloc);
    inside(&mut pieces, doc, element, content)?;
    apply(alloc, doc.bytes(), &pieces)
}
