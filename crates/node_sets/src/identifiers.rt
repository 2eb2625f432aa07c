//! Identifiers: which element an `Id` names.

ghost use Rattle.std.specs.Prelude.{◌≡◌};
ghost use Rattle.std.specs.Str.{chars};
ghost use Rattle.document_model.specs.NodeSets.{is_identifier, once_each, target_of};
ghost use Rattle.xml_items.specs.Attributes.{attribute_in, attributes_left};
ghost use Rattle.doc_spans.specs.Seen.{Has, document_in, path_in};
ghost use Rattle.node_sets.specs.Answers.{answer_in, HasAnswer, with_one, with_more, identified_at, has_identifier_name};

use doc_spans::{Doc, NodeId, Pieces};
use xml_items::attribute_walk::{Attribute, Attributes};
use xml_items::texts::{is, is_empty};

/// Which element has an identifier.
#[derive(Clone, Copy, PartialEq, Eq, Debug)]
pub enum IdAnswer {
    /// This one alone.
    One(NodeId),
    /// No element has it.
    Absent,
    /// More than one attribute has it as its value.
    Many,
}

/// Whether an attribute may be an identifier by its local name, `Id`, `ID` or `id`. So many names are this project's own choice: without a
/// schema or a DTD no attribute is of the type ID (XML Signature 1.1, section 4.4.3.2).
pub fn is_identifier_name(a: Attribute<'_>) -> bool
    ensures { result ≡ has_identifier_name (attribute_in a.entry) }
{
    is(a.local, "Id") || is(a.local, "ID") || is(a.local, "id")
}

fn is_identifier(a: Attribute<'_>, value: &str) -> bool
    ensures { result ≡ is_identifier (chars value.now) (attribute_in a.entry) }
{
    !is_empty(value)
        && is_empty(a.prefix)
        && is_identifier_name(a)
        && Pieces::of_value(a.value).same(value)
}

// The answer where one more element has the identifier.
fn with_one(doc: Doc<'_>, node: NodeId, found: IdAnswer) -> IdAnswer
    requires { Has doc node }
    ensures answer { answer_in doc.entry result ≡ with_one (path_in doc.entry node) (answer_in doc.entry found) }
    ensures has { HasAnswer doc.entry result }
{
    match found {
        IdAnswer::Absent => IdAnswer::One(node),
        _ => IdAnswer::Many,
    }
}

// The answer with the attributes of one more element.
fn with_attributes(
    doc: Doc<'_>,
    node: NodeId,
    attributes: Attributes<'_>,
    value: &str,
    found: IdAnswer,
) -> IdAnswer
    requires has { Has doc node }
    requires found { HasAnswer doc found }
    ensures answer { answer_in doc.entry result ≡ with_more (once_each (chars value.now) (path_in doc.entry node) (attributes_left attributes.entry)) (answer_in doc.entry found) }
    ensures has { HasAnswer doc.entry result }
{
    let mut rest = attributes;
    let mut answer = found;
    'attributes: loop {
        match rest.first() {
            Some((a, behind)) => {
                if is_identifier(a, value) {
                    answer = with_one(doc, node, answer);
                }
                rest = behind;
            }
            None => return answer,
        }
    }
}

// Adds to the answer what one more node and all that is below it have.
fn add_node(answer: &mut IdAnswer, doc: Doc<'_>, node: NodeId, value: &str)
    requires { Has doc node × HasAnswer doc answer.old }
    ensures answer { answer_in doc.entry answer.new ≡ with_more (identified_at (chars value.now) doc.entry node) (answer_in doc.entry answer.old) }
    ensures has { HasAnswer doc.entry answer.new }
{
    if let Some(tag) = doc.open_tag(node) {
        *answer = with_attributes(doc, node, Attributes::of(tag.attributes), value, *answer);
        for child in doc.children(node) {
            add_node(answer, doc, child, value);
        }
    }
}

/// The element that has an identifier: an attribute `Id`, `ID` or `id` without prefix with this value. The empty text is none's.
pub fn find_id(doc: Doc<'_>, value: &str) -> IdAnswer
    ensures answer { answer_in doc.entry result ≡ target_of (chars value.now) (document_in doc.entry) }
    ensures has { HasAnswer doc.entry result }
{
    let mut answer = IdAnswer::Absent;
    for node in doc.top() {
        add_node(&mut answer, doc, node, value);
    }
    answer
}
