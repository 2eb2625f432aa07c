//! What the nodes of a document are: tags, texts, order.

ghost use Rattle.std.specs.Prelude.{IfSome};
ghost use Rattle.doc_spans.specs.Seen.{Has};

use crate::documents::Ledger;
use doc_spans::{Attr, Doc, NodeId, Piece, Pieces, Tree};
use std::test::Fail;
use xa_io::Steps;

const PARTS: &[u8] = b"<p:a xmlns:p=\"u\" b=' &lt;&#xD;\n'>x&amp;\r\ny<![CDATA[\r]]></p:a>";

const COMMENT: &[u8] = b"<a><!--a\r\nb\rc&lt;--></a>";

// The first node below the document element.
fn first_below(doc: Doc<'_>) -> Option<NodeId>
    ensures { IfSome result (Has doc.entry) }
{
    doc.children(doc.root()).next()
}

fn compares_characters() -> bool {
    let mut pieces = Pieces::of("a&b");
    let is_whole = pieces.same("a&b") && !pieces.same("a&");
    let gives_run = matches!(pieces.next(), Some(Piece::Run("a&b")));
    is_whole && gives_run && pieces.same("") && pieces.next().is_none()
}

#[test]
fn gives_and_compares_characters(rt: HostRuntime) {
    assert!(rt; compares_characters());
}

fn is_attribute(attribute: Option<Attr<'_>>, name: &str, value: &str) -> bool {
    match attribute {
        Some(found) => found.name == name && found.value.same(value),
        None => false,
    }
}

// Whether the document element is called `p:a` and has two attributes.
fn has_tag(doc: Doc<'_>) -> bool {
    let root = doc.root();
    let mut attributes = doc.attrs(root);
    let first = is_attribute(attributes.next(), "xmlns:p", "u");
    let second = is_attribute(attributes.next(), "b", " <\r ");
    doc.name_text(root) == "p:a" && first && second && attributes.next().is_none()
}

fn has_open_tag(doc: Doc<'_>) -> bool {
    match doc.open_tag(doc.root()) {
        Some(tag) => tag.name == "p:a",
        None => false,
    }
}

#[test]
fn gives_the_tag_of_an_element(rt: HostRuntime) -> Result<(), Fail> {
    let mut steps: Steps<Ledger> = Steps::new();
    let tree = Tree::read(rt.alloc(), PARTS, &mut steps)?;
    let doc = Doc::of(PARTS, &tree);
    assert!(rt; has_tag(doc) && has_open_tag(doc));
    Ok(())
}

// Whether the first node below the document element has these characters, and no tag.
fn has_text(doc: Doc<'_>, text: &str) -> bool {
    match first_below(doc) {
        Some(node) => doc.text_pieces(node).same(text) && doc.open_tag(node).is_none(),
        None => false,
    }
}

const SECTIONS: &[u8] = b"<a><![CDATA[]]>x<![CDATA[]]><![CDATA[y]]>&lt;<![CDATA[]]></a>";

// Whether the first node below the document element has so many pieces, of which each has a character.
fn has_pieces(doc: Doc<'_>, count: usize) -> bool {
    let mut pieces = match first_below(doc) {
        Some(node) => doc.text_pieces(node),
        None => return false,
    };
    for _ in 0..count {
        match pieces.next() {
            Some(Piece::Run(run)) if run.is_empty() => return false,
            Some(_) => {}
            None => return false,
        }
    }
    pieces.next().is_none()
}

#[test]
fn gives_no_empty_piece(rt: HostRuntime) -> Result<(), Fail> {
    let mut steps: Steps<Ledger> = Steps::new();
    let tree = Tree::read(rt.alloc(), SECTIONS, &mut steps)?;
    let doc = Doc::of(SECTIONS, &tree);
    assert!(rt; has_text(doc, "xy<") && has_pieces(doc, 3));
    Ok(())
}

#[test]
fn reads_references_and_line_ends(rt: HostRuntime) -> Result<(), Fail> {
    let mut steps: Steps<Ledger> = Steps::new();
    let tree = Tree::read(rt.alloc(), PARTS, &mut steps)?;
    assert!(rt; has_text(Doc::of(PARTS, &tree), "x&\ny\n"));
    let of_comment = Tree::read(rt.alloc(), COMMENT, &mut steps)?;
    assert!(rt; has_text(Doc::of(COMMENT, &of_comment), "a\nb\nc&lt;"));
    Ok(())
}

// Whether the document element stands before the first node below it, and around it.
fn is_in_order(doc: Doc<'_>) -> bool {
    let root = doc.root();
    match first_below(doc) {
        Some(text) => {
            let before = doc.is_before(root, text) && !doc.is_before(text, root);
            let within = doc.is_within(root, text) && !doc.is_within(text, root);
            before && within && !doc.is_before(text, text)
        }
        None => false,
    }
}

#[test]
fn tells_document_order(rt: HostRuntime) -> Result<(), Fail> {
    let mut steps: Steps<Ledger> = Steps::new();
    let tree = Tree::read(rt.alloc(), PARTS, &mut steps)?;
    assert!(rt; is_in_order(Doc::of(PARTS, &tree)));
    Ok(())
}
