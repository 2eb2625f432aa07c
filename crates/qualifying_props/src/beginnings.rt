//! Where elements begin.

ghost use Rattle.std.specs.Prelude.{◌≡◌, Some};
ghost use Rattle.doc_spans.specs.Seen.{Has, bytes_in, path_in};
ghost use Rattle.qualifying_props.specs.Begins.{begins_at};

use doc_spans::{Doc, NodeId};

// The place of a node's first byte.
pub(crate) fn beginning(doc: Doc<'_>, node: NodeId) -> u32
    requires { Has doc node }
    ensures { begins_at (bytes_in doc.entry) (path_in doc.entry node) ≡ Some result }
{
    doc.span(node).start
}
