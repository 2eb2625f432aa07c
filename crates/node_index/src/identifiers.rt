//! The identifiers of a document.

ghost use Rattle.std.specs.Prelude.{◌≡◌, IfOk, OnOk, [], ◌∷◌};
ghost use Rattle.std.specs.Str.{chars};
ghost use Rattle.document_model.specs.NodeSets.{once_each, target_of};
ghost use Rattle.xml_items.specs.Attributes.{attribute_in, attributes_left};
ghost use Rattle.doc_spans.specs.declared.documents.Doc.{Doc};
ghost use Rattle.doc_spans.specs.Seen.{Has, document_in, path_in};
ghost use Rattle.node_sets.specs.Answers.{answer_in, HasAnswer, identified_at};
ghost use Rattle.node_index.specs.Identifiers.{Finds, IsWithin, AreOf, answer_of, may_identify};

use crate::indices::NodeIndex;
use crate::sightings::Sightings;
use crate::texts::gathered;
use doc_spans::{Doc, NodeId, Pieces};
use node_sets::{IdAnswer, is_identifier_name};
use std::alloc::Global;
use xa_io::OutOfMemory;
use xml_items::attribute_walk::{Attribute, Attributes};
use xml_items::texts::is_empty;
use xml_items::value_texts::is_empty_value;

/// Which elements of a document have which identifiers: attributes without prefix whose name `is_identifier_name` of `node_sets` knows, with
/// a value that isn't empty.
#[derive(Drop)]
pub struct Identifiers {
    index: NodeIndex,
}

impl Identifiers {
    /// Those of a document, by one pass over it.
    pub fn of(alloc: Global, doc: Doc<'_>) -> Result<Identifiers, OutOfMemory>
        ensures { IfOk result (AreOf doc.entry) }
    {
        let mut index = NodeIndex::new(alloc);
        for node in doc.top() {
            add_node(&mut index, alloc, doc, node)?;
        }
        Ok(Identifiers { index })
    }

    /// The element that has an identifier, by one look-up. The empty text is none's. It takes no memory.
    pub fn find(&self, value: &str) -> IdAnswer
        ensures answer { (doc : Doc) → AreOf doc self.now → answer_in doc result ≡ target_of (chars value.now) (document_in doc) }
        ensures has { (doc : Doc) → AreOf doc self.now → HasAnswer doc result }
    {
        answer_of(self.index.find(value))
    }
}

// The answer by the elements that were found.
fn answer_of(found: Sightings) -> IdAnswer
    ensures { result ≡ answer_of found }
{
    match found {
        Sightings::Absent => IdAnswer::Absent,
        Sightings::One(node) => IdAnswer::One(node),
        Sightings::Several { .. } => IdAnswer::Many,
    }
}

// Whether an attribute is an identifier.
fn is_identifier(a: Attribute<'_>) -> bool
    ensures { result ≡ may_identify (attribute_in a.entry) }
{
    !is_empty_value(a.value) && is_empty(a.prefix) && is_identifier_name(a)
}

// Adds an element under an attribute's value, where that is an identifier.
fn add_attribute(
    index: &mut NodeIndex,
    alloc: Global,
    doc: Doc<'_>,
    node: NodeId,
    a: Attribute<'_>,
) -> Result<(), OutOfMemory>
    requires has { Has doc node }
    requires within { IsWithin doc index.old }
    ensures { OnOk result (Finds doc.entry (λ value. once_each value (path_in doc.entry node) (attribute_in a.entry ∷ [])) index.old index.new) }
{
    if is_identifier(a) {
        index.add(gathered(alloc, Pieces::of_value(a.value))?, node)?;
    }
    Ok(())
}

// Adds an element under each of its identifiers.
fn add_attributes(
    index: &mut NodeIndex,
    alloc: Global,
    doc: Doc<'_>,
    node: NodeId,
    attributes: Attributes<'_>,
) -> Result<(), OutOfMemory>
    requires has { Has doc node }
    requires within { IsWithin doc index.old }
    ensures { OnOk result (Finds doc.entry (λ value. once_each value (path_in doc.entry node) (attributes_left attributes.entry)) index.old index.new) }
{
    let mut rest = attributes;
    'attributes: loop {
        match rest.first() {
            Some((a, behind)) => {
                add_attribute(index, alloc, doc, node, a)?;
                rest = behind;
            }
            None => return Ok(()),
        }
    }
}

// Adds a node and all that is below it.
fn add_node(
    index: &mut NodeIndex,
    alloc: Global,
    doc: Doc<'_>,
    node: NodeId,
) -> Result<(), OutOfMemory>
    requires has { Has doc node }
    requires within { IsWithin doc index.old }
    ensures { OnOk result (Finds doc.entry (λ value. identified_at value doc.entry node) index.old index.new) }
{
    if let Some(tag) = doc.open_tag(node) {
        add_attributes(index, alloc, doc, node, Attributes::of(tag.attributes))?;
        for child in doc.children(node) {
            add_node(index, alloc, doc, child)?;
        }
    }
    Ok(())
}
