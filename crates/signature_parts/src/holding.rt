//! What elements have to hold: each call adds the places of one kind of fault to those before. An element that may not exist and doesn't
//! has none.

ghost use Rattle.std.specs.Prelude.{IfSome};
ghost use Rattle.std.specs.Str.{chars};
ghost use Rattle.doc_spans.specs.Seen.{document_in};
ghost use Rattle.signature_elements.specs.Names.{expanded};
ghost use Rattle.signature_elements.specs.Standing.{spot_or_none, IsThere};
ghost use Rattle.signature_model.specs.Holding.{lacking, further, not_one, without_attribute, with_stray_text, without_value, without_octets, without_text};
ghost use Rattle.signature_parts.specs.Places.{Adds, IsWithin};

use crate::octets::has_octets;
use crate::places::FirstPlace;
use doc_spans::{Doc, NodeId};
use signature_elements::{
    ElementName, NamedElements, called, first_called, has_attribute, has_stray_text, is_blank,
    is_text_alone,
};

impl FirstPlace {
    ghost use Rattle.std.specs.Prelude.{◌≡◌};
    ghost use Rattle.signature_elements.specs.NamedLeft.{called_doc, called_left};
    ghost use Rattle.signature_model.specs.Spots.{paths};

    /// All elements that are left.
    pub fn add_all(&mut self, doc: Doc<'_>, elements: NamedElements<'_, '_>)
        requires within { IsWithin doc self.old }
        requires same { called_doc elements ≡ doc }
        ensures { Adds doc.entry (paths (called_left elements.entry)) self.old self.new }
    {
        for element in elements {
            self.add(doc, element);
        }
    }

    /// The element, where it has no child with a name.
    pub fn add_lacking(&mut self, doc: Doc<'_>, name: ElementName<'_>, holder: Option<NodeId>)
        requires within { IsWithin doc self.old }
        requires holder { IfSome holder (IsThere doc) }
        ensures { Adds doc.entry (lacking (document_in doc.entry) (expanded name.entry) (spot_or_none doc.entry holder)) self.old self.new }
    {
        if let Some(node) = holder {
            let lacks = first_called(doc, node, name).is_none();
            self.add_where(doc, node, lacks);
        }
    }

    /// The children with a name, but for the first of them.
    pub fn add_further(&mut self, doc: Doc<'_>, name: ElementName<'_>, holder: Option<NodeId>)
        requires within { IsWithin doc self.old }
        requires holder { IfSome holder (IsThere doc) }
        ensures { Adds doc.entry (further (document_in doc.entry) (expanded name.entry) (spot_or_none doc.entry holder)) self.old self.new }
    {
        if let Some(node) = holder {
            let mut children = called(doc, node, name);
            if children.next().is_some() {
                self.add_all(doc, children);
            }
        }
    }

    /// The element, where it has no child with a name, or the children with it but for the first.
    pub fn add_not_one(&mut self, doc: Doc<'_>, name: ElementName<'_>, holder: Option<NodeId>)
        requires within { IsWithin doc self.old }
        requires holder { IfSome holder (IsThere doc) }
        ensures { Adds doc.entry (not_one (document_in doc.entry) (expanded name.entry) (spot_or_none doc.entry holder)) self.old self.new }
    {
        self.add_lacking(doc, name, holder);
        self.add_further(doc, name, holder);
    }

    /// The element, where it has no attribute with a local name.
    pub fn add_without_attribute(&mut self, doc: Doc<'_>, local: &str, holder: Option<NodeId>)
        requires within { IsWithin doc self.old }
        requires holder { IfSome holder (IsThere doc) }
        ensures { Adds doc.entry (without_attribute (chars local.now) (spot_or_none doc.entry holder)) self.old self.new }
    {
        if let Some(node) = holder {
            let lacks = !has_attribute(doc, node, local);
            self.add_where(doc, node, lacks);
        }
    }

    /// The element, where it holds text between its elements that isn't white space.
    pub fn add_with_stray_text(&mut self, doc: Doc<'_>, holder: Option<NodeId>)
        requires within { IsWithin doc self.old }
        requires holder { IfSome holder (IsThere doc) }
        ensures { Adds doc.entry (with_stray_text (document_in doc.entry) (spot_or_none doc.entry holder)) self.old self.new }
    {
        if let Some(node) = holder {
            let has_text = has_stray_text(doc, node);
            self.add_where(doc, node, has_text);
        }
    }

    /// The element, where it holds something else than text.
    pub fn add_without_value(&mut self, doc: Doc<'_>, holder: Option<NodeId>)
        requires within { IsWithin doc self.old }
        requires holder { IfSome holder (IsThere doc) }
        ensures { Adds doc.entry (without_value (document_in doc.entry) (spot_or_none doc.entry holder)) self.old self.new }
    {
        if let Some(node) = holder {
            let has_others = !is_text_alone(doc, node);
            self.add_where(doc, node, has_others);
        }
    }

    /// The element, where it holds something else than text, or its text isn't strict base64 with white space skipped (RFC 4648,
    /// section 4).
    pub fn add_without_octets(&mut self, doc: Doc<'_>, holder: Option<NodeId>)
        requires within { IsWithin doc self.old }
        requires holder { IfSome holder (IsThere doc) }
        ensures { Adds doc.entry (without_octets (document_in doc.entry) (spot_or_none doc.entry holder)) self.old self.new }
    {
        self.add_without_value(doc, holder);
        if let Some(node) = holder {
            let is_other = !has_octets(doc, node);
            self.add_where(doc, node, is_other);
        }
    }

    /// The element, where it holds something else than text, or white space alone.
    pub fn add_without_text(&mut self, doc: Doc<'_>, holder: Option<NodeId>)
        requires within { IsWithin doc self.old }
        requires holder { IfSome holder (IsThere doc) }
        ensures { Adds doc.entry (without_text (document_in doc.entry) (spot_or_none doc.entry holder)) self.old self.new }
    {
        self.add_without_value(doc, holder);
        if let Some(node) = holder {
            let is_empty = is_blank(doc, node);
            self.add_where(doc, node, is_empty);
        }
    }
}
