// Tags of ASCII: most tags are known by one pass over their bytes.
ghost use Rattle.std.specs.Prelude.{ℕ, ◌≡◌, ◌-◌, take, ◌<◌, ◌≤◌, ◌+◌, IfSome, Some, true, drop, get_or, length, IsTrue};
ghost use Rattle.document_model.specs.Items.{piece_at};
ghost use Rattle.xml_items.specs.Scanned.{piece_in};
ghost use Rattle.xml_items.specs.Items.{IsRead};
ghost use Rattle.xml_items.specs.ShortNames.{starts_short, continues_short, is_short_part, in_short, is_quoted, is_simple, is_inside, IsShortName, IsShortPair, IsShortRow};
ghost use Rattle.xml_items.specs.Texts.{is_ascii};
ghost use Rattle.std.specs.List.{list_all};
ghost use Rattle.xml_items.specs.Spans.{IsPlaced};

use crate::items::Found;
use crate::runs::is_ordinary;
use crate::scanner::Scanned;
use crate::tags::{MOST_ATTRIBUTES, is_value};
use crate::texts::{is_plain, utf8_part};

// Of each byte: 3 where a name may begin with it, 2 where one may go on with it, 1 for the colon, else 0.
static CLASSES: [u8; 256] = [
    0, 0, 0, 0, 0, 0, 0, 0, 0, 0, 0, 0, 0, 0, 0, 0, 0, 0, 0, 0, 0, 0, 0, 0, 0, 0, 0, 0, 0, 0, 0, 0,
    0, 0, 0, 0, 0, 0, 0, 0, 0, 0, 0, 0, 0, 2, 2, 0, 2, 2, 2, 2, 2, 2, 2, 2, 2, 2, 1, 0, 0, 0, 0, 0,
    0, 3, 3, 3, 3, 3, 3, 3, 3, 3, 3, 3, 3, 3, 3, 3, 3, 3, 3, 3, 3, 3, 3, 3, 3, 3, 3, 0, 0, 0, 0, 3,
    0, 3, 3, 3, 3, 3, 3, 3, 3, 3, 3, 3, 3, 3, 3, 3, 3, 3, 3, 3, 3, 3, 3, 3, 3, 3, 3, 0, 0, 0, 0, 0,
    0, 0, 0, 0, 0, 0, 0, 0, 0, 0, 0, 0, 0, 0, 0, 0, 0, 0, 0, 0, 0, 0, 0, 0, 0, 0, 0, 0, 0, 0, 0, 0,
    0, 0, 0, 0, 0, 0, 0, 0, 0, 0, 0, 0, 0, 0, 0, 0, 0, 0, 0, 0, 0, 0, 0, 0, 0, 0, 0, 0, 0, 0, 0, 0,
    0, 0, 0, 0, 0, 0, 0, 0, 0, 0, 0, 0, 0, 0, 0, 0, 0, 0, 0, 0, 0, 0, 0, 0, 0, 0, 0, 0, 0, 0, 0, 0,
    0, 0, 0, 0, 0, 0, 0, 0, 0, 0, 0, 0, 0, 0, 0, 0, 0, 0, 0, 0, 0, 0, 0, 0, 0, 0, 0, 0, 0, 0, 0, 0,
];

#[inline(always)]
fn starts_short(byte: u8) -> bool
    ensures { result ≡ starts_short byte }
{
    CLASSES[byte as usize] > 2
}

#[inline(always)]
fn continues_short(byte: u8) -> bool
    ensures { result ≡ continues_short byte }
{
    CLASSES[byte as usize] > 1
}

// The place behind the prefix or the local part at a place, or that place.
#[inline(always)]
fn part_end(bytes: &[u8], start: usize) -> usize
    requires { start ≤ length bytes.now }
    ensures order { start ≤ result }
    ensures bound { result ≤ length bytes.now }
    ensures part { start < result → is_short_part (take (result - start) (drop start bytes.now)) ≡ true }
{
    let mut end = start;
    if end < bytes.len() && starts_short(bytes[end]) {
        end += 1;
        'part: while end < bytes.len() && continues_short(bytes[end]) {
            end += 1;
        }
    }
    end
}

// The place behind the name at a place, or that place.
#[inline(always)]
fn name_end(bytes: &[u8], start: usize) -> usize
    requires { start ≤ length bytes.now }
    ensures order { start ≤ result }
    ensures bound { result ≤ length bytes.now }
    ensures name { start < result → IsShortName (take (result - start) (drop start bytes.now)) }
{
    let front = part_end(bytes, start);
    if start < front && front < bytes.len() && bytes[front] == b':' {
        let behind = front + 1;
        let end = part_end(bytes, behind);
        if behind < end { end } else { start }
    } else {
        front
    }
}

// Whether bytes are such a name. Where they aren't, they may be a name of other characters.
pub(crate) fn is_short_name(bytes: &[u8]) -> bool
    ensures { result ≡ true → IsShortName bytes.now }
{
    let end = name_end(bytes, 0);
    end > 0 && end == bytes.len()
}

// The text of a name.
#[inline(always)]
fn name_text(bytes: &[u8], start: usize, end: usize) -> &str
    requires order { start ≤ end }
    requires bound { end ≤ length bytes.now }
    requires name { IsShortName (take (end - start) (drop start bytes.now)) }
    ensures { result.now ≡ take (end - start) (drop start bytes.now) }
{
    utf8_part(bytes, start, end)
}

// The start tag, the empty tag or the end tag that begins at a place, where it is such a tag.
pub(crate) fn short_tag<'a>(bytes: &'a [u8], at: usize) -> Option<Scanned<'a>>
    requires { at ≤ length bytes.now }
    ensures item { IfSome result (λ scanned. piece_at (drop at bytes.now) ≡ Some (piece_in bytes.now at scanned)) }
    ensures placed { IfSome result (λ scanned. IsPlaced (take (scanned.end - at) (drop at bytes.now)) scanned.found) }
    ensures read { IfSome result (λ scanned. IsRead scanned.found) }
    ensures within { IfSome result (λ scanned. (at < scanned.end) × (scanned.end ≤ length bytes.now)) }
{
    if at + 1 < bytes.len() && bytes[at] == b'<' {
        if bytes[at + 1] == b'/' {
            short_end_tag(bytes, at)
        } else {
            short_open_tag(bytes, at)
        }
    } else {
        None
    }
}

#[inline(always)]
fn short_end_tag<'a>(bytes: &'a [u8], at: usize) -> Option<Scanned<'a>>
    requires within { at + 1 < length bytes.now }
    requires first { get_or bytes.now at 0 ≡ 0x3C }
    requires second { get_or bytes.now (at + 1) 0 ≡ 0x2F }
    ensures item { IfSome result (λ scanned. piece_at (drop at bytes.now) ≡ Some (piece_in bytes.now at scanned)) }
    ensures placed { IfSome result (λ scanned. IsPlaced (take (scanned.end - at) (drop at bytes.now)) scanned.found) }
    ensures read { IfSome result (λ scanned. IsRead scanned.found) }
    ensures within { IfSome result (λ scanned. (at < scanned.end) × (scanned.end ≤ length bytes.now)) }
{
    let start = at + 2;
    let end = name_end(bytes, start);
    if start < end && end < bytes.len() && bytes[end] == b'>' {
        return Some(Scanned {
            found: Found::EndTag(name_text(bytes, start, end)),
            end: end + 1,
        });
    }
    None
}

#[inline(always)]
fn short_open_tag<'a>(bytes: &'a [u8], at: usize) -> Option<Scanned<'a>>
    requires within { at + 1 < length bytes.now }
    requires first { get_or bytes.now at 0 ≡ 0x3C }
    ensures item { IfSome result (λ scanned. piece_at (drop at bytes.now) ≡ Some (piece_in bytes.now at scanned)) }
    ensures placed { IfSome result (λ scanned. IsPlaced (take (scanned.end - at) (drop at bytes.now)) scanned.found) }
    ensures read { IfSome result (λ scanned. IsRead scanned.found) }
    ensures within { IfSome result (λ scanned. (at < scanned.end) × (scanned.end ≤ length bytes.now)) }
{
    let start = at + 1;
    let end = name_end(bytes, start);
    if start < end {
        let last = row_end(bytes, end);
        if last < bytes.len() && bytes[last] == b'>' {
            return Some(Scanned {
                found: Found::StartTag(name_text(bytes, start, end), ascii_text(bytes, end, last)),
                end: last + 1,
            });
        }
        if last + 1 < bytes.len() && bytes[last] == b'/' && bytes[last + 1] == b'>' {
            return Some(Scanned {
                found: Found::EmptyTag(name_text(bytes, start, end), ascii_text(bytes, end, last)),
                end: last + 2,
            });
        }
    }
    None
}

// The place behind the attributes at a place, as far as they are of ASCII and stand behind one space each.
#[inline(always)]
fn row_end(bytes: &[u8], start: usize) -> usize
    requires { start ≤ length bytes.now }
    ensures order { start ≤ result }
    ensures bound { result ≤ length bytes.now }
    ensures row { (n : ℕ) × (n ≤ 256) × IsShortRow (take (result - start) (drop start bytes.now)) n }
{
    let mut at = start;
    let mut count = 0;
    'pairs: while count < MOST_ATTRIBUTES {
        let end = pair_end(bytes, at);
        if end == at {
            return at;
        }
        at = end;
        count += 1;
    }
    at
}

// The place behind the one at a place, or that place.
#[inline(always)]
fn pair_end(bytes: &[u8], at: usize) -> usize
    requires { at ≤ length bytes.now }
    ensures order { at ≤ result }
    ensures bound { result ≤ length bytes.now }
    ensures pair { at < result → IsShortPair (take (result - at) (drop at bytes.now)) }
{
    if at < bytes.len() && bytes[at] == b' ' {
        let start = at + 1;
        let equals = name_end(bytes, start);
        if start < equals && equals + 1 < bytes.len() && bytes[equals] == b'=' {
            let quote = bytes[equals + 1];
            if quote == b'"' || quote == b'\'' {
                let start_inside = equals + 2;
                let simple = simple_end(bytes, start_inside, quote);
                if simple < bytes.len() && bytes[simple] == quote {
                    return simple + 1;
                }
                let end = inside_end(bytes, start_inside, quote);
                if end < bytes.len() && bytes[end] == quote {
                    if is_value(ascii_text(bytes, start_inside, end)) {
                        return end + 1;
                    }
                }
            }
        }
    }
    at
}

// The place behind the run of bytes that stand for themselves, none of which is this quote.
#[inline(always)]
fn simple_end(bytes: &[u8], start: usize, quote: u8) -> usize
    requires { start ≤ length bytes.now }
    ensures order { start ≤ result }
    ensures bound { result ≤ length bytes.now }
    ensures run { list_all (is_simple quote) (take (result - start) (drop start bytes.now)) ≡ true }
{
    let mut end = start;
    'run: while end < bytes.len() && is_ordinary(bytes[end]) && bytes[end] != quote {
        end += 1;
    }
    end
}

// The place behind the run of characters of ASCII, none of which is this quote.
fn inside_end(bytes: &[u8], start: usize, quote: u8) -> usize
    requires { start ≤ length bytes.now }
    ensures order { start ≤ result }
    ensures bound { result ≤ length bytes.now }
    ensures run { list_all (is_inside quote) (take (result - start) (drop start bytes.now)) ≡ true }
{
    let mut end = start;
    'run: while end < bytes.len() && is_plain(bytes[end]) && bytes[end] != quote {
        end += 1;
    }
    end
}

// The place behind the run of bytes of names at a place.
#[inline(always)]
pub(crate) fn short_run(bytes: &[u8], start: usize) -> usize
    requires { start ≤ length bytes.now }
    ensures order { start ≤ result }
    ensures bound { result ≤ length bytes.now }
    ensures run { list_all in_short (take (result - start) (drop start bytes.now)) ≡ true }
{
    let mut end = start;
    'run: while end < bytes.len() && in_short(bytes[end]) {
        end += 1;
    }
    end
}

#[inline(always)]
fn in_short(byte: u8) -> bool
    ensures { result ≡ in_short byte }
{
    CLASSES[byte as usize] > 0
}

// The place behind the run of bytes of ASCII, none of which is this quote.
#[inline(always)]
pub(crate) fn quoted_end(bytes: &[u8], start: usize, quote: u8) -> usize
    requires { start ≤ length bytes.now }
    ensures order { start ≤ result }
    ensures bound { result ≤ length bytes.now }
    ensures run { list_all (is_quoted quote) (take (result - start) (drop start bytes.now)) ≡ true }
{
    let mut end = start;
    'run: while end < bytes.len() && bytes[end] < 0x80 && bytes[end] != quote {
        end += 1;
    }
    end
}

// The text of bytes of ASCII.
#[inline(always)]
pub(crate) fn ascii_text(bytes: &[u8], start: usize, end: usize) -> &str
    requires order { start ≤ end }
    requires bound { end ≤ length bytes.now }
    requires ascii { IsTrue (is_ascii (take (end - start) (drop start bytes.now))) }
    ensures { result.now ≡ take (end - start) (drop start bytes.now) }
{
    utf8_part(bytes, start, end)
}
