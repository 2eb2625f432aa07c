//! An apex that an element holds.

ghost use Rattle.std.specs.Prelude.{◌≡◌, ◌++◌, [], OnOk};
ghost use Rattle.document_model.specs.Canonical.{at_apex};
ghost use Rattle.document_model.specs.Scopes.{elements_around};
ghost use Rattle.doc_spans.specs.Seen.{Has, document_in, path_in};
ghost use Rattle.canon_tags.specs.Around.{around_in};
ghost use Rattle.canon_forms.specs.Walks.{doc_of, written_apex};

use crate::nodes::put_node;
use crate::walks::Walk;
use canon_tags::Around;
use doc_spans::{Doc, NodeId};
use xa_io::{Octs, OutOfMemory};

// Appends the apex with what is below it, where the set holds it. The elements around it are still to be held.
pub(crate) fn put_apex<'a>(
    out: &mut Octs,
    around: &mut Around<'a>,
    walk: &Walk<'a, '_>,
    apex: NodeId,
) -> Result<(), OutOfMemory>
    requires has { Has (doc_of walk.now) apex }
    requires top { around_in around.old ≡ at_apex [] }
    ensures { OnOk result (out.new ≡ out.old ++ written_apex walk.now apex) }
{
    if !walk.has(apex) {
        return Ok(());
    }
    hold_around(around, walk.doc(), apex)?;
    put_node(out, around, walk, apex)
}

// Holds the elements around a node, from the outermost in.
fn hold_around<'a>(around: &mut Around<'a>, doc: Doc<'a>, node: NodeId) -> Result<(), OutOfMemory>
    requires has { Has doc node }
    requires top { around_in around.old ≡ at_apex [] }
    ensures { OnOk result (around_in around.new ≡ at_apex (elements_around (document_in doc.entry) (path_in doc.entry node))) }
{
    let parent = match doc.parent(node) {
        Some(parent) => parent,
        None => return Ok(()),
    };
    hold_around(around, doc, parent)?;
    match doc.open_tag(parent) {
        Some(tag) => around.hold(tag),
        None => Ok(()),
    }
}
