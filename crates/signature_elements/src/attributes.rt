//! Attributes of elements by their local names.

ghost use Rattle.std.specs.Prelude.{◌≡◌, option_map};
ghost use Rattle.std.specs.Str.{chars};
ghost use Rattle.doc_spans.specs.Pieces.{characters_left};
ghost use Rattle.signature_model.specs.Spots.{attribute, has_attribute};
ghost use Rattle.signature_elements.specs.Standing.{spot_of, IsThere};

use doc_spans::{Doc, NodeId, Pieces};

/// The value of an element's attribute that has no prefix; none where it has no such attribute.
pub fn attribute<'a>(doc: Doc<'a>, node: NodeId, local: &str) -> Option<Pieces<'a>>
    requires { IsThere doc node }
    ensures { option_map characters_left result ≡ attribute (chars local.now) (spot_of doc.entry node) }
{
    node_sets::attribute(doc, node, "", local)
}

/// Whether an element has an attribute without prefix, be its value empty or not.
pub fn has_attribute(doc: Doc<'_>, node: NodeId, local: &str) -> bool
    requires { IsThere doc node }
    ensures { result ≡ has_attribute (chars local.now) (spot_of doc.entry node) }
{
    attribute(doc, node, local).is_some()
}
