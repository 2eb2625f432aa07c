//! The items of a text, one after another.

ghost use Rattle.std.specs.Prelude.{◌≡◌, ◌⊎◌, ◌++◌, ◌+◌, ◌-◌, ◌<◌, ◌≤◌, [], false, true, length, take, drop, get_or, MatchOption, IfSome, IfNone};
ghost use Rattle.doc_spans.specs.Texts.{HoldText, AreLiteral, is_literal_byte};

use crate::parts::{Part, part_of};
use xml_items::lanes::{LANES, literal_lanes};
use xml_items::scanner::next_item;
use xml_items::texts::utf8_part;

// The items of a text from one place in the bytes to another.
#[derive(Clone, Copy)]
pub(crate) struct TextItems<'a> {
    pub(crate) bytes: &'a [u8],
    pub(crate) at: usize,
    pub(crate) end: usize,
    ghost within: { end ≤ length bytes.now },
    ghost hold: { ∥ HoldText bytes.now at end ∥₁ },
}

impl<'a> TextItems<'a> {
    ghost use Rattle.doc_spans.specs.TextParts.{part_in, part_size, IsSomePart};
    ghost use Rattle.doc_spans.specs.Pieces.{items_left, items_size};

    // The first part of the text, and what is behind it.
    pub(crate) fn first(self) -> Option<(Part<'a>, TextItems<'a>)>
        ensures first { MatchOption result (items_left self.entry ≡ []) (λ r. items_left self.entry ≡ part_in r.0 ++ items_left r.1) }
        ensures shorter { IfSome result (λ r. part_size r.0 + items_size r.1 < items_size self.entry) }
        ensures some { IfSome result (λ r. IsSomePart r.0) }
    {
        let (bytes, at, end) = (self.bytes, self.at, self.end);
        if at == end {
            return None;
        }
        let behind = literal_end(bytes, at, end);
        if at < behind {
            let text = utf8_part(bytes, at, behind);
            let items = TextItems {
                bytes,
                at: behind,
                end,
            };
            return Some((Part::Literal(text), items));
        }
        match next_item(bytes, at) {
            Some(scanned) => {
                let part = part_of(scanned.found);
                let items = TextItems {
                    bytes,
                    at: scanned.end,
                    end,
                };
                Some((part, items))
            }
            None => unreachable!(),
        }
    }
}

// How far bytes go on that begin no reference, no markup and no line end.
fn literal_end(bytes: &[u8], at: usize, end: usize) -> usize
    requires order { at ≤ end }
    requires within { end ≤ length bytes.now }
    ensures order { at ≤ result }
    ensures within { result ≤ end }
    ensures literal { AreLiteral bytes.now at result }
    ensures stops { (result ≡ end) ⊎ (is_literal_byte (get_or bytes.now result 0) ≡ false) }
{
    for behind in literal_part_end(bytes, at, end)..end {
        if !is_literal_byte(bytes[behind]) {
            return behind;
        }
    }
    end
}

// The same, as far as sixteen bytes are known at once.
#[inline(always)]
fn literal_part_end(bytes: &[u8], at: usize, end: usize) -> usize
    requires order { at ≤ end }
    requires within { end ≤ length bytes.now }
    ensures order { at ≤ result }
    ensures within { result ≤ end }
    ensures literal { AreLiteral bytes.now at result }
{
    let mut from = at;
    'by_lanes: while end - from >= LANES {
        let run = literal_lanes(bytes, from);
        if run < LANES {
            return from + run;
        }
        from += LANES;
    }
    from
}

fn is_literal_byte(byte: u8) -> bool
    ensures { result ≡ is_literal_byte byte }
{
    !matches!(byte, b'<' | b'&' | b'\r')
}
