//! What the URIs of a draft name in a document.

ghost use Rattle.std.specs.Prelude.{◌≡◌, ◌<◌, ◌^◌, ℕ, List, IfOk, length};
ghost use Rattle.std.specs.List.{All};
ghost use Rattle.doc_spans.specs.Seen.{Has, document_in, path_in};
ghost use Rattle.node_index.specs.Identifiers.{AreOf};
ghost use Rattle.node_sets.specs.Answers.{HasAnswer, answer_in};
ghost use Rattle.document_model.specs.NodeSets.{Single};
ghost use Rattle.reference_chains.specs.Places.{HasPlace, found_in};
ghost use Rattle.signature_model.specs.Chains.{on_target};
ghost use Rattle.prepared_documents.specs.Tests.{first_at};
ghost use Rattle.augmenter.specs.Targets.{ArePlaces, IsRoot, passes_found, test_on};

use doc_spans::{Doc, NodeId};
use node_index::Identifiers;
use node_sets::IdAnswer;
use reference_chains::{Place, place_named};
use signature_drafts::Draft;
use std::alloc::Global;
use xa_io::OutOfMemory;

// What is asked of the target of an identifier.
#[derive(Clone, Copy)]
pub(crate) enum TargetTest {
    // No element has the identifier.
    Missing,
    // Several attributes are it.
    Several,
    // It is that of the document element, which is this node.
    Root(NodeId),
}

// What each URI of a draft names.
pub(crate) fn places(
    alloc: Global,
    doc: Doc<'_>,
    identifiers: &Identifiers,
    draft: &Draft,
) -> Result<Vec<Place>, OutOfMemory>
    requires { AreOf doc identifiers.now }
    ensures { IfOk result (λ places. ArePlaces doc.entry draft.now.references places.items) }
{
    let mut places = Vec::new(alloc);
    for number in 0..draft.refs() {
        match places.push(place_named(identifiers, draft.uri(number))) {
            Ok(()) => {}
            Err(_) => return Err(OutOfMemory),
        }
    }
    Ok(places)
}

// Whether an element passes a test.
fn passes_node(doc: Doc<'_>, test: TargetTest, node: NodeId) -> bool
    requires root { IsRoot doc test }
    requires node { Has doc node }
    ensures { result ≡ test_on doc.entry test (Single (path_in doc.entry node)) }
{
    match test {
        TargetTest::Root(root) => doc.is_same(node, root),
        _ => false,
    }
}

// Whether what an identifier names passes a test.
fn passes_answer(doc: Doc<'_>, test: TargetTest, answer: IdAnswer) -> bool
    requires root { IsRoot doc test }
    requires answer { HasAnswer doc answer }
    ensures { result ≡ test_on doc.entry test (answer_in doc.entry answer) }
{
    match answer {
        IdAnswer::One(node) => passes_node(doc, test, node),
        IdAnswer::Absent => matches!(test, TargetTest::Missing),
        IdAnswer::Many => matches!(test, TargetTest::Several),
    }
}

// Whether a place passes a test.
fn passes(doc: Doc<'_>, test: TargetTest, place: Place) -> bool
    requires root { IsRoot doc test }
    requires place { HasPlace doc place }
    ensures { result ≡ passes_found (test_on doc.entry test) (found_in doc.entry place) }
{
    match place {
        Place::Named(answer) => passes_answer(doc, test, answer),
        _ => false,
    }
}

// The number, from 1, of the first place that passes a test.
pub(crate) fn first_passing(doc: Doc<'_>, test: TargetTest, places: &[Place]) -> Option<u32>
    requires few { length places.now < 2 ^ 32 }
    requires root { IsRoot doc test }
    requires have { All (HasPlace doc) places.now }
    ensures { (uris : List (List ℕ)) → ArePlaces doc.entry uris places.now → result ≡ first_at (on_target (document_in doc.entry) (test_on doc.entry test)) 1 uris }
{
    for number in 0..places.len() {
        if passes(doc, test, places[number]) {
            return Some(number as u32 + 1);
        }
    }
    None
}
