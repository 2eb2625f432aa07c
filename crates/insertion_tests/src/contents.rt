//! Content in the document element.

ghost use Rattle.std.specs.Prelude.{◌≤◌, length};

use doc_spans::{Doc, Tree};
use insertions::put;
use std::alloc::Global;
use xa_io::Steps;

pub(crate) struct Ledger;

// Whether content put into the document element of a document gives these bytes.
fn gives(alloc: Global, bytes: &[u8], content: &[u8], wanted: &[u8]) -> bool
    requires { length bytes.now ≤ 16777216 }
{
    let mut steps: Steps<Ledger> = Steps::new();
    let tree = match Tree::read(alloc, bytes, &mut steps) {
        Ok(tree) => tree,
        Err(_) => return false,
    };
    let doc = Doc::of(bytes, &tree);
    match put(alloc, doc, doc.root(), content) {
        Ok(new) => new.as_slice() == wanted,
        Err(_) => false,
    }
}

fn opens_plain_tags(alloc: Global) -> bool {
    gives(alloc, b"<a/>", b"x", b"<a>x</a>")
        && gives(alloc, b"<a />\n", b"x", b"<a >x</a>\n")
        && gives(alloc, b"<a/>", b"", b"<a></a>")
}

fn opens_other_tags(alloc: Global) -> bool {
    gives(
        alloc,
        b"<!--c--><p:a xmlns:p='u' b='/>' />",
        b"<c/>",
        b"<!--c--><p:a xmlns:p='u' b='/>' ><c/></p:a>",
    ) && gives(alloc, b"<\xC3\xA4\n/>", b"x", b"<\xC3\xA4\n>x</\xC3\xA4>")
}

#[test]
fn opens_empty_tags(rt: HostRuntime) {
    let alloc = rt.alloc();
    assert!(rt; opens_plain_tags(alloc));
    assert!(rt; opens_other_tags(alloc));
}

fn goes_before_end_tags(alloc: Global) -> bool {
    gives(alloc, b"<a>b</a >\n", b"<c/>", b"<a>b<c/></a >\n")
        && gives(
            alloc,
            b"<a><b/></a><!--</a>-->",
            b"y",
            b"<a><b/>y</a><!--</a>-->",
        )
}

fn goes_behind_markup(alloc: Global) -> bool {
    gives(
        alloc,
        b"<a><b>1</b><![CDATA[]]></a>",
        b"y",
        b"<a><b>1</b><![CDATA[]]>y</a>",
    ) && gives(
        alloc,
        b"<a><![CDATA[</a>]]><?p </a>?></a>",
        b"y",
        b"<a><![CDATA[</a>]]><?p </a>?>y</a>",
    )
}

#[test]
fn puts_content_last(rt: HostRuntime) {
    let alloc = rt.alloc();
    assert!(rt; goes_before_end_tags(alloc));
    assert!(rt; goes_behind_markup(alloc));
}
