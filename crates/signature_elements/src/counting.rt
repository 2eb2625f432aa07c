//! How many signatures a document has.

ghost use Rattle.std.specs.Prelude.{◌≡◌};
ghost use Rattle.doc_spans.specs.Seen.{Has, document_in};
ghost use Rattle.signature_model.specs.Parts.{counted};
ghost use Rattle.signature_elements.specs.Standing.{spot_of, IsThere};
ghost use Rattle.signature_elements.specs.Counts.{IsCount, AreThere, tally_in, with_one, with_more, outermost_at};

use crate::names::{ds, is_called, is_element};
use doc_spans::{Doc, NodeId};

/// How many signatures a document has.
#[derive(Clone, Copy)]
pub enum SignatureCount {
    /// None.
    Nothing,
    /// This one alone.
    One(NodeId),
    /// More than one.
    Several,
}

/// Counts the signatures of a document: the elements `Signature` of XML Signature (1.1, section 4.1) that have no such element around
/// them.
pub fn counted(doc: Doc<'_>) -> SignatureCount
    ensures { IsCount doc.entry (counted (document_in doc.entry)) result }
{
    let mut found = SignatureCount::Nothing;
    for node in doc.top() {
        add_node(&mut found, doc, node);
    }
    found
}

// Adds the signatures of a node and below it that have none around them.
fn add_node(found: &mut SignatureCount, doc: Doc<'_>, node: NodeId)
    requires { Has doc node × AreThere doc found.old }
    ensures tally { tally_in doc.entry found.new ≡ with_more (outermost_at doc.entry node) (tally_in doc.entry found.old) }
    ensures there { AreThere doc.entry found.new }
{
    if !is_element(doc, node) {
        return;
    }
    if is_called(doc, node, ds("Signature")) {
        *found = with_one(doc, *found, node);
        return;
    }
    for child in doc.children(node) {
        add_node(found, doc, child);
    }
}

// The count with one more signature.
fn with_one(doc: Doc<'_>, found: SignatureCount, node: NodeId) -> SignatureCount
    requires { IsThere doc node }
    ensures tally { tally_in doc.entry result ≡ with_one (spot_of doc.entry node) (tally_in doc.entry found) }
    ensures there { AreThere doc.entry result }
{
    match found {
        SignatureCount::Nothing => SignatureCount::One(node),
        _ => SignatureCount::Several,
    }
}
