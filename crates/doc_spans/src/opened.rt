//! Elements that are open.

ghost use Rattle.std.specs.Prelude.{◌≡◌, [], length};
ghost use Rattle.std.specs.Str.{chars};
ghost use Rattle.xml_items.specs.Found.{attributes_in};
ghost use Rattle.doc_spans.specs.Scoped.{with_declarations};

use crate::open_tags::OpenTag;

/// An element's start tag, and how many declarations it has.
#[derive(Clone, Copy)]
pub struct Opened<'a> {
    /// The tag.
    pub tag: OpenTag<'a>,
    /// How many of its attributes are declarations.
    pub count: usize,
    ghost counted: { count ≡ length (with_declarations (attributes_in (chars tag.attributes.now)) []) },
}
