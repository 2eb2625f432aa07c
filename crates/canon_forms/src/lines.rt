//! The nodes that the document itself holds: outside the document element each stands on a line of its own.

ghost use Rattle.std.specs.Prelude.{◌≡◌, ◌++◌, [], false, encode_utf8_all, OnOk};
ghost use Rattle.document_model.specs.Canonical.{at_apex};
ghost use Rattle.doc_spans.specs.Seen.{Has, document_in, path_in};
ghost use Rattle.doc_spans.specs.Shown.{outer_path};
ghost use Rattle.canon_tags.specs.Around.{around_in};
ghost use Rattle.canon_methods.specs.Rules.{rule_in};
ghost use Rattle.canon_forms.specs.Writing.{lines_text, line_of, IsReached};
ghost use Rattle.canon_forms.specs.Walks.{doc_of, held_in, test_in, element_in, written_in, written_top};

use crate::nodes::put_node;
use crate::walks::Walk;
use canon_tags::Around;
use doc_spans::{Doc, Kind, NodeId};
use xa_io::{Octs, OutOfMemory};

// Appends the nodes of the document that the set holds. No element stands around them.
pub(crate) fn put_lines<'a>(
    out: &mut Octs,
    around: &mut Around<'a>,
    walk: &Walk<'a, '_>,
) -> Result<(), OutOfMemory>
    requires { around_in around.old ≡ at_apex [] }
    ensures { OnOk result (out.new ≡ out.old ++ encode_utf8_all (lines_text (rule_in walk.now.rule) (test_in walk.now) false 0 (document_in (doc_of walk.now)))) }
{
    let doc = walk.doc();
    let mut behind = false;
    for node in doc.top() {
        put_top(out, around, walk, node, behind)?;
        behind = behind || is_element(doc, node);
    }
    Ok(())
}

// Appends one of them, where the set holds it.
fn put_top<'a>(
    out: &mut Octs,
    around: &mut Around<'a>,
    walk: &Walk<'a, '_>,
    node: NodeId,
    behind: bool,
) -> Result<(), OutOfMemory>
    requires has { Has (doc_of walk.now) node }
    requires top { around_in around.old ≡ at_apex [] }
    ensures written { OnOk result (out.new ≡ out.old ++ written_top walk.now behind node) }
    ensures around { OnOk result (around_in around.new ≡ around_in around.old) }
{
    if !walk.has(node) {
        return Ok(());
    }
    if is_element(walk.doc(), node) {
        return put_node(out, around, walk, node);
    }
    put_line(out, around, walk, node, behind)
}

// Appends a node with the line end that parts it from the document element.
fn put_line<'a>(
    out: &mut Octs,
    around: &mut Around<'a>,
    walk: &Walk<'a, '_>,
    node: NodeId,
    behind: bool,
) -> Result<(), OutOfMemory>
    requires has { Has (doc_of walk.now) node }
    requires reached { IsReached (held_in walk.now) (path_in (doc_of walk.now) node) }
    ensures written { OnOk result (out.new ≡ out.old ++ line_of behind (written_in walk.now (around_in around.old) node)) }
    ensures around { OnOk result (around_in around.new ≡ around_in around.old) }
{
    if behind {
        out.push_all(b"\n")?;
        return put_node(out, around, walk, node);
    }
    put_node(out, around, walk, node)?;
    out.push_all(b"\n")
}

fn is_element(doc: Doc<'_>, node: NodeId) -> bool
    requires { Has doc node }
    ensures { result ≡ element_in doc.entry node }
{
    matches!(doc.kind(node), Kind::Element)
}
