//! Documents that are kept while content is put in.

ghost use Rattle.std.specs.Prelude.{◌≤◌, length};
ghost use Rattle.doc_spans.specs.Seen.{Has};

use crate::contents::Ledger;
use doc_spans::{Doc, Kind, NodeId};
use insertions::{GraftFault, LiveDoc};
use std::alloc::Global;
use xa_io::Steps;

// The document element, the first node below it, the first one below that, and so on.
fn deepest(doc: Doc<'_>) -> NodeId
    ensures { Has doc.entry result }
{
    let mut at = doc.root();
    for _ in 0..255 {
        match doc.children(at).next() {
            Some(below) => at = below,
            None => {}
        }
    }
    at
}

// Puts an empty element into the deepest one.
pub(crate) fn deepen(live: &mut LiveDoc) -> Result<(), GraftFault> {
    let mut steps: Steps<Ledger> = Steps::new();
    let doc = live.doc();
    let element = deepest(doc);
    match doc.kind(element) {
        Kind::Element => live.insert(element, b"<c/>", &mut steps),
        _ => Err(GraftFault::OutOfMemory),
    }
}

pub(crate) fn read(alloc: Global, bytes: &[u8]) -> Option<LiveDoc>
    requires { length bytes.now ≤ 16777216 }
{
    let mut steps: Steps<Ledger> = Steps::new();
    LiveDoc::read(alloc, bytes, &mut steps).ok()
}

// Whether two elements put in one below the other give these bytes, and the tree has the second.
fn deepens_twice(alloc: Global, bytes: &[u8], wanted: &[u8]) -> bool
    requires { length bytes.now ≤ 16777216 }
{
    let Some(mut live) = read(alloc, bytes) else {
        return false;
    };
    let is_deeper = deepen(&mut live).is_ok() && deepen(&mut live).is_ok();
    let doc = live.doc();
    is_deeper && live.bytes() == wanted && doc.name_text(deepest(doc)) == "c"
}

#[test]
fn keeps_the_tree_of_the_new_bytes(rt: HostRuntime) {
    let alloc = rt.alloc();
    assert!(rt; deepens_twice(alloc, b"<a/>", b"<a><c><c/></c></a>"));
    assert!(rt; deepens_twice(alloc, b"<a><b />x</a>", b"<a><b ><c><c/></c></b>x</a>"));
}
