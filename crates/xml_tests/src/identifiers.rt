//! Texts and the nodes under them, and the identifiers of a document.

use crate::documents::Ledger;
use doc_spans::{Doc, NodeId, Pieces, Tree};
use node_index::{Identifiers, NodeIndex, Sightings, fragment, gathered};
use node_sets::IdAnswer;
use std::alloc::Global;
use std::test::Fail;
use xa_io::Steps;

// Four elements below the document element: the first is called by an attribute with a reference in it, the second has two identifiers
// that are one text, the third has an empty one and one with a prefix, the fourth that of the document element.
const TEXT: &[u8] =
    b"<a xmlns:p=\"u\" Id=\"x\"><b ID=\"y&#122;\"/><c Id=\"w\" id=\"w\"/><d Id=\"\" p:Id=\"v\"/><e id=\"x\"/></a>";

// Whether one node alone is under a text.
fn has_one(index: &NodeIndex, text: &str, node: NodeId) -> bool {
    match index.find(text) {
        Sightings::One(found) => found == node,
        _ => false,
    }
}

// Whether these two nodes are the first under a text.
fn has_two(index: &NodeIndex, text: &str, one: NodeId, other: NodeId) -> bool {
    match index.find(text) {
        Sightings::Several { first, second } => first == one && second == other,
        _ => false,
    }
}

fn has_none(index: &NodeIndex, text: &str) -> bool {
    matches!(index.find(text), Sightings::Absent)
}

fn keeps_two(alloc: Global, first: NodeId, second: NodeId) -> Result<bool, Fail> {
    let mut index = NodeIndex::new(alloc);
    let was_empty = has_none(&index, "x");
    index.add(String::from_str(alloc, "x")?, first)?;
    index.add(String::from_str(alloc, "y")?, second)?;
    let had_one = has_one(&index, "x", first);
    index.add(String::from_str(alloc, "x")?, second)?;
    index.add(String::from_str(alloc, "x")?, first)?;
    let has_all = has_two(&index, "x", first, second) && has_one(&index, "y", second);
    Ok(was_empty && had_one && has_all && has_none(&index, ""))
}

#[test]
fn keeps_the_first_two(rt: HostRuntime) -> Result<(), Fail> {
    let alloc = rt.alloc();
    let mut steps: Steps<Ledger> = Steps::new();
    let tree = Tree::read(alloc, TEXT, &mut steps)?;
    let doc = Doc::of(TEXT, &tree);
    let first = doc.root();
    let second = doc.children(first).next().expect(&rt, "a child");
    let is_kept = keeps_two(alloc, first, second)?;
    assert!(rt; is_kept);
    Ok(())
}

#[test]
fn decodes_texts(rt: HostRuntime) -> Result<(), Fail> {
    let alloc = rt.alloc();
    let plain = gathered(alloc, Pieces::of("x&amp;"))?;
    assert!(rt; plain.as_str() == "x&amp;");
    let whole = fragment(alloc, Pieces::of("x"))?;
    let bare = fragment(alloc, Pieces::of(""))?;
    assert!(rt; whole.as_str() == "#x" && bare.as_str() == "#");
    Ok(())
}

fn finds_one(identifiers: &Identifiers, text: &str, node: NodeId) -> bool {
    match identifiers.find(text) {
        IdAnswer::One(found) => found == node,
        _ => false,
    }
}

fn finds_many(identifiers: &Identifiers) -> bool {
    matches!(identifiers.find("x"), IdAnswer::Many)
        && matches!(identifiers.find("w"), IdAnswer::Many)
}

fn finds_none(identifiers: &Identifiers) -> bool {
    matches!(identifiers.find("v"), IdAnswer::Absent)
        && matches!(identifiers.find(""), IdAnswer::Absent)
        && matches!(identifiers.find("y&#122;"), IdAnswer::Absent)
}

#[test]
fn finds_identifiers(rt: HostRuntime) -> Result<(), Fail> {
    let mut steps: Steps<Ledger> = Steps::new();
    let tree = Tree::read(rt.alloc(), TEXT, &mut steps)?;
    let doc = Doc::of(TEXT, &tree);
    let second = doc.children(doc.root()).next().expect(&rt, "a child");
    let identifiers = Identifiers::of(rt.alloc(), doc)?;
    assert!(rt; finds_one(&identifiers, "yz", second));
    assert!(rt; finds_many(&identifiers) && finds_none(&identifiers));
    Ok(())
}
