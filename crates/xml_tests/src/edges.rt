//! Where bytes that are read many at once end: runs of each length, characters past ASCII, and the most attributes.

ghost use Rattle.std.specs.Prelude.{◌≤◌, length};

use crate::documents::{Ledger, is_read, misses_item};
use crate::forms::exclusive;
use canon_forms::to_vec;
use doc_spans::{Doc, Tree};
use node_sets::NodeSet;
use std::alloc::{AllocError, Global};
use std::test::Fail;
use xa_io::Steps;

// More bytes than any of these documents has.
const MOST_BYTES: usize = 100000;

// A part so many times, between others.
fn filled(
    alloc: Global,
    front: &[u8],
    part: &[u8],
    count: usize,
    behind: &[u8],
) -> Result<Vec<u8>, AllocError> {
    let mut bytes = Vec::new(alloc);
    bytes.extend_from_slice(front)?;
    for _ in 0..count {
        bytes.extend_from_slice(part)?;
    }
    bytes.extend_from_slice(behind)?;
    Ok(bytes)
}

// Whether the first fault of an element with a part so many times and what stands behind is so many bytes behind the parts.
fn stops(alloc: Global, part: &[u8], count: usize, behind: &[u8], at: u32) -> Result<bool, Fail> {
    let bytes = filled(alloc, b"<a>", part, count, behind)?;
    if bytes.len() > MOST_BYTES {
        return Ok(false);
    }
    let end_of_parts = bytes.len().saturating_sub(behind.len()) as u32;
    Ok(misses_item(alloc, &bytes, end_of_parts.wrapping_add(at)))
}

// Whether a document is read and is its own canonical text.
fn is_itself(alloc: Global, bytes: &[u8]) -> Result<bool, Fail>
    requires { length bytes.now ≤ 16777216 }
{
    let mut steps: Steps<Ledger> = Steps::new();
    let tree = Tree::read(alloc, bytes, &mut steps)?;
    let text = to_vec(alloc, &NodeSet::whole(Doc::of(bytes, &tree)), &exclusive())?;
    Ok(text.as_slice() == bytes)
}

fn is_element(alloc: Global, front: &[u8], part: &[u8], count: usize) -> Result<bool, Fail> {
    let bytes = filled(alloc, front, part, count, b"</a>")?;
    if bytes.len() > MOST_BYTES {
        return Ok(false);
    }
    is_itself(alloc, &bytes)
}

#[test]
fn reads_runs_of_each_length(rt: HostRuntime) -> Result<(), Fail> {
    let alloc = rt.alloc();
    let mut are_read = true;
    for count in 0..40 {
        let is_plain = is_element(alloc, b"<a>", b"x", count)?;
        let is_wide = is_element(alloc, b"<a>", "\u{E4}".as_bytes(), count)?;
        are_read = are_read && is_plain && is_wide;
    }
    assert!(rt; are_read);
    Ok(())
}

#[test]
fn tells_faults_behind_runs_of_each_length(rt: HostRuntime) -> Result<(), Fail> {
    let alloc = rt.alloc();
    let mut are_told = true;
    for count in 0..40 {
        let by_brackets = stops(alloc, b"x", count, b"]]></a>", 2)?;
        let by_control = stops(alloc, b"x", count, b"\x01</a>", 0)?;
        let by_name = stops(alloc, "\u{E4}".as_bytes(), count, b"&x;</a>", 0)?;
        are_told = are_told && by_brackets && by_control && by_name;
    }
    assert!(rt; are_told);
    Ok(())
}

#[test]
fn cuts_long_runs_between_characters(rt: HostRuntime) -> Result<(), Fail> {
    let alloc = rt.alloc();
    let two_bytes = is_element(alloc, b"<a>x", "\u{E4}".as_bytes(), 2100)?;
    let three_bytes = is_element(alloc, b"<a>", "\u{20AC}".as_bytes(), 1400)?;
    let four_bytes = is_element(alloc, b"<a>x", "\u{1F600}".as_bytes(), 2100)?;
    assert!(rt; two_bytes && three_bytes && four_bytes);
    Ok(())
}

// Characters that are none, each behind one past ASCII.
fn refuses_noncharacters(alloc: Global) -> bool {
    misses_item(alloc, b"<a>\xC3\xA4\xEF\xBF\xBE</a>", 5)
        && misses_item(alloc, b"<a>\xC3\xA4\xEF\xBF\xBF</a>", 5)
        && misses_item(alloc, b"<a>\xC3\xA4\xED\xA0\x80</a>", 5)
        && misses_item(alloc, b"<a>\xC3\xA4\xC3</a>", 5)
}

fn reads_rare_characters(alloc: Global) -> bool {
    is_read(alloc, b"<a>\xC3\xA4\x7F\xC3\xA4</a>")
        && is_read(alloc, b"<a>\xC3\xA4\xEF\xBB\xBF</a>")
        && is_read(alloc, b"<a>\xEF\xBF\xBD</a>")
}

#[test]
fn knows_characters_past_ascii(rt: HostRuntime) {
    let alloc = rt.alloc();
    assert!(rt; refuses_noncharacters(alloc));
    assert!(rt; reads_rare_characters(alloc));
}

// An element with so many attributes, each of another name.
fn with_attributes(alloc: Global, count: u16) -> Result<Vec<u8>, AllocError>
    requires { count ≤ 300 }
{
    let mut bytes = Vec::new(alloc);
    bytes.extend_from_slice(b"<a")?;
    for i in 0..count {
        let name = [b'a' + (i / 26) as u8, b'a' + (i % 26) as u8];
        bytes.extend_from_slice(b" ")?;
        bytes.extend_from_slice(&name)?;
        bytes.extend_from_slice(b"=\"1\"")?;
    }
    bytes.extend_from_slice(b"></a>")?;
    Ok(bytes)
}

#[test]
fn takes_256_attributes_and_no_more(rt: HostRuntime) -> Result<(), Fail> {
    let alloc = rt.alloc();
    let most = with_attributes(alloc, 256)?;
    let too_many = with_attributes(alloc, 257)?;
    assert!(rt; most.len() < MOST_BYTES && too_many.len() < MOST_BYTES);
    let is_taken = is_itself(alloc, &most)?;
    assert!(rt; is_taken && misses_item(alloc, &too_many, 0));
    Ok(())
}

fn refuses_tags(alloc: Global) -> bool {
    misses_item(alloc, b"<a b=\"1\"c=\"2\"/>", 0)
        && misses_item(alloc, b"<a b=\"<\"/>", 0)
        && misses_item(alloc, b"<a b=\"&x;\"/>", 0)
        && misses_item(alloc, b"<1a/>", 0)
        && misses_item(alloc, b"<a :b=\"1\"/>", 0)
}

fn reads_tags(alloc: Global) -> bool {
    is_read(alloc, b"<a b='\"' c=\"'>\"/>")
        && is_read(alloc, b"<a b=\"&lt;&#x41;\" c = '1' ></a >")
        && is_read(alloc, b"<a  b=\"1\"\n\tc=\"2\"/>")
        && is_read(alloc, "<\u{E4} b=\"\u{E4}\"/>".as_bytes())
}

#[test]
fn knows_tags_by_their_bytes(rt: HostRuntime) {
    let alloc = rt.alloc();
    assert!(rt; refuses_tags(alloc));
    assert!(rt; reads_tags(alloc));
}
