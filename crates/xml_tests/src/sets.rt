//! Sets, names and identifiers in one document.

ghost use Rattle.std.specs.Prelude.{IfSome};
ghost use Rattle.doc_spans.specs.Seen.{Has};

use crate::documents::Ledger;
use doc_spans::{Doc, NodeId, Pieces, Tree};
use node_sets::{IdAnswer, NodeSet, attribute, find_id, in_scope, is_named};
use std::test::Fail;
use xa_io::Steps;

const TEXT: &[u8] =
    b"<a xmlns=\"u\" xmlns:p=\"v\" Id=\"x\"><p:b p:c=\"1\" c=\"2\"/><!--k--><d Id=\"y\" id=\"x\"/></a>";

// The three nodes below the document element.
fn below(doc: Doc<'_>) -> Option<(NodeId, NodeId, NodeId)>
    ensures { IfSome result (λ r. Has doc.entry r.0 × Has doc.entry r.1 × Has doc.entry r.2) }
{
    let mut children = doc.children(doc.root());
    let first = children.next()?;
    let second = children.next()?;
    let third = children.next()?;
    Some((first, second, third))
}

fn is_text(pieces: Option<Pieces<'_>>, text: &str) -> bool {
    match pieces {
        Some(found) => found.same(text),
        None => false,
    }
}

fn finds_one(doc: Doc<'_>) -> bool {
    match (find_id(doc, "y"), below(doc)) {
        (IdAnswer::One(found), Some((_, _, last))) => found == last,
        _ => false,
    }
}

fn finds_others(doc: Doc<'_>) -> bool {
    matches!(find_id(doc, "x"), IdAnswer::Many)
        && matches!(find_id(doc, "z"), IdAnswer::Absent)
        && matches!(find_id(doc, ""), IdAnswer::Absent)
}

#[test]
fn finds_identifiers(rt: HostRuntime) -> Result<(), Fail> {
    let mut steps: Steps<Ledger> = Steps::new();
    let tree = Tree::read(rt.alloc(), TEXT, &mut steps)?;
    let doc = Doc::of(TEXT, &tree);
    assert!(rt; finds_one(doc) && finds_others(doc));
    Ok(())
}

fn names_elements(doc: Doc<'_>) -> bool {
    match below(doc) {
        Some((node, _, _)) => {
            is_named(doc, doc.root(), "u", "a")
                && is_named(doc, node, "v", "b")
                && !is_named(doc, node, "p", "b")
        }
        None => false,
    }
}

fn names_attributes(doc: Doc<'_>) -> bool {
    match below(doc) {
        Some((node, _, _)) => {
            is_text(attribute(doc, node, "v", "c"), "1")
                && is_text(attribute(doc, node, "", "c"), "2")
                && attribute(doc, node, "u", "c").is_none()
        }
        None => false,
    }
}

#[test]
fn tells_names_by_their_namespaces(rt: HostRuntime) -> Result<(), Fail> {
    let mut steps: Steps<Ledger> = Steps::new();
    let tree = Tree::read(rt.alloc(), TEXT, &mut steps)?;
    let doc = Doc::of(TEXT, &tree);
    assert!(rt; names_elements(doc));
    assert!(rt; names_attributes(doc));
    Ok(())
}

fn binds_prefixes(doc: Doc<'_>) -> bool {
    match below(doc) {
        Some((_, comment, _)) => {
            is_text(in_scope(doc, comment, "p"), "v")
                && is_text(in_scope(doc, comment, ""), "u")
                && in_scope(doc, comment, "q").is_none()
                && is_text(
                    in_scope(doc, comment, "xml"),
                    "http://www.w3.org/XML/1998/namespace",
                )
        }
        None => false,
    }
}

#[test]
fn tells_what_prefixes_mean(rt: HostRuntime) -> Result<(), Fail> {
    let mut steps: Steps<Ledger> = Steps::new();
    let tree = Tree::read(rt.alloc(), TEXT, &mut steps)?;
    assert!(rt; binds_prefixes(Doc::of(TEXT, &tree)));
    Ok(())
}

// Whether a set without comments and without the last node holds the others.
fn leaves_out(doc: Doc<'_>) -> bool {
    match below(doc) {
        Some((first, comment, last)) => {
            let set = NodeSet::whole(doc).without_comments().without(last);
            let holds = set.has(doc.root()) && set.has(first);
            holds && !set.has(comment) && !set.has(last)
        }
        None => false,
    }
}

fn takes_subtrees(doc: Doc<'_>) -> bool {
    match below(doc) {
        Some((first, comment, _)) => {
            let part = NodeSet::subtree(doc, first);
            let whole = NodeSet::subtree(doc, doc.root());
            part.has(first) && !part.has(doc.root()) && whole.has(comment)
        }
        None => false,
    }
}

#[test]
fn holds_nodes(rt: HostRuntime) -> Result<(), Fail> {
    let mut steps: Steps<Ledger> = Steps::new();
    let tree = Tree::read(rt.alloc(), TEXT, &mut steps)?;
    let doc = Doc::of(TEXT, &tree);
    assert!(rt; leaves_out(doc));
    assert!(rt; takes_subtrees(doc));
    Ok(())
}
