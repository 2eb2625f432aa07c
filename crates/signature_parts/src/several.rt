//! What several elements have to hold.

ghost use Rattle.std.specs.Prelude.{◌≡◌, IfSome};
ghost use Rattle.doc_spans.specs.Seen.{document_in};
ghost use Rattle.signature_elements.specs.NamedLeft.{called_doc, called_left};
ghost use Rattle.signature_elements.specs.Standing.{spot_or_none, IsThere};
ghost use Rattle.signature_model.specs.Holding.{with_stray_text, without_value};
ghost use Rattle.signature_model.specs.Spots.{paths};
ghost use Rattle.signature_parts.specs.Places.{Adds, IsWithin};

use crate::places::FirstPlace;
use doc_spans::{Doc, NodeId};
use signature_elements::NamedElements;

impl FirstPlace {
    /// An element that may not exist.
    pub fn add_part(&mut self, doc: Doc<'_>, part: Option<NodeId>)
        requires within { IsWithin doc self.old }
        requires part { IfSome part (IsThere doc) }
        ensures { Adds doc.entry (paths (spot_or_none doc.entry part)) self.old self.new }
    {
        if let Some(node) = part {
            self.add(doc, node);
        }
    }

    /// Those of the elements that hold text between their elements that isn't white space.
    pub fn add_each_with_stray_text(&mut self, doc: Doc<'_>, holders: NamedElements<'_, '_>)
        requires within { IsWithin doc self.old }
        requires same { called_doc holders ≡ doc }
        ensures { Adds doc.entry (with_stray_text (document_in doc.entry) (called_left holders.entry)) self.old self.new }
    {
        for holder in holders {
            self.add_with_stray_text(doc, Some(holder));
        }
    }

    /// Those of the elements that hold something else than text.
    pub fn add_each_without_value(&mut self, doc: Doc<'_>, holders: NamedElements<'_, '_>)
        requires within { IsWithin doc self.old }
        requires same { called_doc holders ≡ doc }
        ensures { Adds doc.entry (without_value (document_in doc.entry) (called_left holders.entry)) self.old self.new }
    {
        for holder in holders {
            self.add_without_value(doc, Some(holder));
        }
    }
}
