//! The text of a set of nodes, handed on piece by piece.

ghost use Rattle.std.specs.Prelude.{◌≡◌, OnOk};
ghost use Rattle.document_model.specs.NodeSets.{part};
ghost use Rattle.doc_spans.specs.Pieces.{characters_left};
ghost use Rattle.doc_spans.specs.Seen.{Has, document_in, path_in};
ghost use Rattle.node_sets.specs.Sets.{set_in, doc_in};
ghost use Rattle.canon_forms.specs.Writing.{IsReached};
ghost use Rattle.signature_model.specs.Chains.{texts};
ghost use Rattle.reference_chains.specs.SetTexts.{text_in, held_text_in, top_text};

use crate::takers::TakesText;
use doc_spans::{Kind, NodeId, Pieces};
use node_sets::NodeSet;

// Hands on the text of a set.
pub(crate) fn hand_on_set<T: TakesText>(taker: &mut T, set: &NodeSet<'_>) -> Result<(), T::Fault>
    ensures { OnOk result (taker.new ≡ T.after taker.old (texts (part (set_in set.now) (document_in (doc_in set.now))))) }
{
    match set.apex() {
        Some(apex) => hand_on_held(taker, set, apex),
        None => hand_on_top(taker, set),
    }
}

// Hands on the text of the nodes that the document holds, with what of them the set holds.
fn hand_on_top<T: TakesText>(taker: &mut T, set: &NodeSet<'_>) -> Result<(), T::Fault>
    ensures { OnOk result (taker.new ≡ T.after taker.old (top_text (set_in set.now) (document_in (doc_in set.now)))) }
{
    for node in set.doc().top() {
        hand_on_held(taker, set, node)?;
    }
    Ok(())
}

// Hands on the text of a node with what of it the set holds, unless the set doesn't hold the node.
fn hand_on_held<T: TakesText>(
    taker: &mut T,
    set: &NodeSet<'_>,
    node: NodeId,
) -> Result<(), T::Fault>
    requires { Has (doc_in set.now) node }
    ensures { OnOk result (taker.new ≡ T.after taker.old (held_text_in set.now node)) }
{
    if set.has(node) {
        return hand_on_node(taker, set, node);
    }
    Ok(())
}

// Hands on the text of a node that the set reaches, with what of it the set holds.
fn hand_on_node<T: TakesText>(
    taker: &mut T,
    set: &NodeSet<'_>,
    node: NodeId,
) -> Result<(), T::Fault>
    requires has { Has (doc_in set.now) node }
    requires reached { IsReached (set_in set.now) (path_in (doc_in set.now) node) }
    ensures { OnOk result (taker.new ≡ T.after taker.old (text_in set.now node)) }
{
    let doc = set.doc();
    match doc.kind(node) {
        Kind::Text => hand_on_pieces(taker, doc.text_pieces(node)),
        _ => {
            for child in doc.children(node) {
                if !set.is_removed(child) {
                    hand_on_node(taker, set, child)?;
                }
            }
            Ok(())
        }
    }
}

fn hand_on_pieces<T: TakesText>(taker: &mut T, pieces: Pieces<'_>) -> Result<(), T::Fault>
    ensures { OnOk result (taker.new ≡ T.after taker.old (characters_left pieces.entry)) }
{
    for piece in pieces {
        taker.take(piece)?;
    }
    Ok(())
}
