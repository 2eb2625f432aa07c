//! Nodes with what they hold.

ghost use Rattle.std.specs.Prelude.{◌≡◌, ◌++◌, codes, encode_utf8_all, OnOk};
ghost use Rattle.std.specs.Str.{chars};
ghost use Rattle.doc_spans.specs.Seen.{Has, path_in};
ghost use Rattle.canon_tags.specs.Around.{around_in};
ghost use Rattle.canon_forms.specs.Writing.{IsReached};
ghost use Rattle.canon_forms.specs.Walks.{doc_of, held_in, leaf_in, written_in};

use crate::walks::Walk;
use canon_tags::Around;
use canon_texts::{put_comment, put_instruction, put_text};
use doc_spans::{Doc, Kind, NodeId};
use xa_io::{Octs, OutOfMemory};

// Appends a node with what of it the set holds. What is known of the elements around it is as before.
pub(crate) fn put_node<'a>(
    out: &mut Octs,
    around: &mut Around<'a>,
    walk: &Walk<'a, '_>,
    node: NodeId,
) -> Result<(), OutOfMemory>
    requires has { Has (doc_of walk.now) node }
    requires reached { IsReached (held_in walk.now) (path_in (doc_of walk.now) node) }
    ensures written { OnOk result (out.new ≡ out.old ++ written_in walk.now (around_in around.old) node) }
    ensures around { OnOk result (around_in around.new ≡ around_in around.old) }
{
    let doc = walk.doc();
    let tag = match doc.open_tag(node) {
        Some(tag) => tag,
        None => return put_leaf(out, doc, node),
    };
    let outside = around.open(out, &walk.rule, tag)?;
    for child in doc.children(node) {
        if walk.has_below(child) {
            put_node(out, around, walk, child)?;
        }
    }
    around.close(outside);
    put_end_tag(out, tag.name)
}

// Appends a node that isn't an element.
fn put_leaf(out: &mut Octs, doc: Doc<'_>, node: NodeId) -> Result<(), OutOfMemory>
    requires { Has doc node }
    ensures { OnOk result (out.new ≡ out.old ++ leaf_in doc.entry node) }
{
    match doc.kind(node) {
        Kind::Element => Ok(()),
        Kind::Text => put_text(out, doc.text_pieces(node)),
        Kind::Comment => put_comment(out, doc.text_pieces(node)),
        Kind::Pi => put_instruction(out, doc.name_text(node), doc.text_pieces(node)),
    }
}

// Appends an end tag.
fn put_end_tag(out: &mut Octs, name: &str) -> Result<(), OutOfMemory>
    ensures { OnOk result (out.new ≡ out.old ++ encode_utf8_all (codes "</" ++ chars name.now ++ codes ">")) }
{
    out.push_all(b"</")?;
    out.push_all(name.as_bytes())?;
    out.push_all(b">")
}
