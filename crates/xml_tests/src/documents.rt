//! Documents and their first faults.

ghost use Rattle.std.specs.Prelude.{◌≤◌, length};

use doc_spans::{DocFault, Tree};
use std::alloc::{AllocError, Global};
use std::test::Fail;
use xa_io::Steps;

pub(crate) struct Ledger;

pub(crate) fn fault_of(alloc: Global, bytes: &[u8]) -> Option<DocFault>
    requires { length bytes.now ≤ 16777216 }
{
    let mut steps: Steps<Ledger> = Steps::new();
    match Tree::read(alloc, bytes, &mut steps) {
        Ok(_) => None,
        Err(fault) => Some(fault),
    }
}

// Whether bytes are a document.
pub(crate) fn is_read(alloc: Global, bytes: &[u8]) -> bool
    requires { length bytes.now ≤ 16777216 }
{
    fault_of(alloc, bytes).is_none()
}

// Whether the first fault is that no legal item stands at a place.
pub(crate) fn misses_item(alloc: Global, bytes: &[u8], place: u32) -> bool
    requires { length bytes.now ≤ 16777216 }
{
    match fault_of(alloc, bytes) {
        Some(DocFault::Item { at }) => at == place,
        _ => false,
    }
}

fn reads_elements(alloc: Global) -> bool {
    is_read(alloc, b"<a/>")
        && is_read(alloc, b" <a><b>x</b\n></a>\n")
        && is_read(alloc, b"<a>&lt;&#xA;&amp;</a>")
}

fn reads_other_items(alloc: Global) -> bool {
    is_read(alloc, b"\xEF\xBB\xBF<?xml version=\"1.0\"?><a b='1'/>")
        && is_read(
            alloc,
            b"<p:a xmlns:p=\"u\" xmlns:q=\"v\" p:b=\"1\" q:b=\"2\"/>",
        )
        && is_read(alloc, b"<!--c--><a><![CDATA[<b>]]></a><?t d?>")
}

#[test]
fn reads_documents(rt: HostRuntime) {
    let alloc = rt.alloc();
    assert!(rt; reads_elements(alloc));
    assert!(rt; reads_other_items(alloc));
}

fn misses_items_inside(alloc: Global) -> bool {
    misses_item(alloc, b"<a><b", 3)
        && misses_item(alloc, b"<a>]]></a>", 5)
        && misses_item(alloc, b"<a b=\"1\" b=\"2\"/>", 0)
        && misses_item(alloc, b"<a></b>", 3)
        && misses_item(alloc, b"<a>&#0;</a>", 3)
}

fn misses_items_around(alloc: Global) -> bool {
    misses_item(alloc, b"<p:a/>", 0)
        && misses_item(alloc, b"<a/>x", 4)
        && misses_item(alloc, b"<a/><b/>", 4)
        && misses_item(alloc, b"<?xml version=\"1.1\"?><a/>", 0)
}

#[test]
fn tells_where_no_item_stands(rt: HostRuntime) {
    let alloc = rt.alloc();
    assert!(rt; misses_items_inside(alloc));
    assert!(rt; misses_items_around(alloc));
}

fn misses_sound_names(alloc: Global) -> bool {
    misses_item(
        alloc,
        b"<a xmlns:p=\"u\" xmlns:q=\"u\" p:b=\"1\" q:b=\"2\"/>",
        0,
    ) && misses_item(
        alloc,
        b"<a xmlns:p=\"http://www.w3.org/XML/1998/namespace\"/>",
        0,
    ) && misses_item(alloc, b"<a xmlns:p=\"\"/>", 0)
        && misses_item(alloc, b"<a><b xmlns:p=\"u\"/><p:c/></a>", 19)
}

#[test]
fn tells_names_that_are_not_sound(rt: HostRuntime) {
    assert!(rt; misses_sound_names(rt.alloc()));
}

// Whether the first fault is that the bytes end.
fn ends_early(alloc: Global, bytes: &[u8]) -> bool
    requires { length bytes.now ≤ 16777216 }
{
    matches!(fault_of(alloc, bytes), Some(DocFault::End))
}

#[test]
fn tells_other_faults(rt: HostRuntime) {
    let alloc = rt.alloc();
    assert!(rt; ends_early(alloc, b"") && ends_early(alloc, b"\xEF\xBB\xBF"));
    let doctype = fault_of(alloc, b"<!--c--><!DOCTYPE a><a/>");
    assert!(rt; matches!(doctype, Some(DocFault::Doctype { at: 8 })));
}

// So many elements, each inside the last.
fn nested(alloc: Global, count: u32) -> Result<Vec<u8>, AllocError> {
    let mut bytes = Vec::new(alloc);
    for _ in 0..count {
        bytes.extend_from_slice(b"<a>")?;
    }
    for _ in 0..count {
        bytes.extend_from_slice(b"</a>")?;
    }
    Ok(bytes)
}

#[test]
fn tells_the_first_element_that_is_too_deep(rt: HostRuntime) -> Result<(), Fail> {
    let alloc = rt.alloc();
    let deepest = nested(alloc, 256)?;
    assert!(rt; deepest.len() < 2000);
    assert!(rt; is_read(alloc, &deepest));
    let too_deep = nested(alloc, 257)?;
    assert!(rt; too_deep.len() < 2000);
    let fault = fault_of(alloc, &too_deep);
    assert!(rt; matches!(fault, Some(DocFault::Depth { at: 768 })));
    Ok(())
}
