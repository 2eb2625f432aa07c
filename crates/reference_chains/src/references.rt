//! A Reference with what was found of it, and its nodes.

ghost use Rattle.std.specs.Prelude.{◌≡◌, None, IfSome, option_map};
ghost use Rattle.doc_spans.specs.Seen.{Has, document_in, path_in};
ghost use Rattle.node_sets.specs.Sets.{set_in, doc_in};
ghost use Rattle.signature_model.specs.Chains.{node_set, taken_from};
ghost use Rattle.signature_model.specs.Covers.{lies_in, is_reached};
ghost use Rattle.signature_elements.specs.Standing.{spot_of, IsThere};
ghost use Rattle.reference_chains.specs.Places.{found_in, HasPlace, set_found};
ghost use Rattle.reference_chains.specs.ChainsIn.{taken_in};
ghost use Rattle.reference_chains.specs.References.{IsReference};

use crate::chains::{Chain, chain_of};
use crate::places::Place;
use doc_spans::{Doc, NodeId};
use node_sets::{IdAnswer, NodeSet};

/// A Reference of a signature, with what its URI names and the chain of its transforms.
#[derive(Clone, Copy)]
pub struct Reference {
    /// The element.
    pub node: NodeId,
    /// What its URI names, by `place_of`.
    pub place: Place,
    /// The chain of its transforms, by `chain_of`.
    pub chain: Chain,
}

impl Reference {
    ghost use Rattle.signature_model.specs.Chains as model;
    ghost use Rattle.doc_spans.specs.Seen.{document_in};
    ghost use Rattle.signature_elements.specs.Standing.{spot_of, IsThere};
    ghost use Rattle.reference_chains.specs.ChainsIn.{chain_in};
    ghost use Rattle.reference_chains.specs.Places.{found};

    /// A Reference with what its URI names, as `place_of` found it; none where its transforms are no chain.
    pub fn of(doc: Doc<'_>, node: NodeId, place: Place) -> Option<Reference>
        requires there { IsThere doc node }
        requires found { found_in doc place ≡ found (document_in doc) (model.place (spot_of doc node)) }
        requires has { HasPlace doc place }
        ensures chain { option_map (λ r. chain_in doc.entry r.chain) result ≡ model.chain (document_in doc.entry) (spot_of doc.entry node) }
        ensures same { IfSome result (λ r. (r.node ≡ node) × (r.place ≡ place)) }
        ensures is { IfSome result (IsReference doc.entry) }
    {
        match chain_of(doc, node, place) {
            Some(chain) => Some(Reference { node, place, chain }),
            None => None,
        }
    }
}

/// The nodes that a Reference of a signature names, before any canonical form or base64, without comments (XML Signature 1.1, section
/// 4.4.3.3); none where it names none. The signature is that which an enveloped signature transform takes away.
pub fn node_set_of<'a>(doc: Doc<'a>, signature: NodeId, reference: Reference) -> Option<NodeSet<'a>>
    requires signature { Has doc signature }
    requires reference { IsReference doc reference }
    ensures set { option_map set_in result ≡ node_set (document_in doc.entry) (path_in doc.entry signature) (spot_of doc.entry reference.node) }
    ensures doc { IfSome result (λ set. doc_in set ≡ doc.entry) }
{
    match target_set(doc, reference.place) {
        Some(set) => Some(less_taken(set, signature, reference.chain.enveloped)),
        None => None,
    }
}

// The set without the signature, where it is to be taken away.
fn less_taken<'a>(set: NodeSet<'a>, signature: NodeId, enveloped: bool) -> NodeSet<'a>
    requires has { Has (doc_in set) signature }
    requires first { (set_in set).removed ≡ None }
    ensures set { set_in result ≡ taken_from (path_in (doc_in set.entry) signature) (set_in set.entry) (taken_in enveloped) }
    ensures doc { doc_in result ≡ doc_in set.entry }
{
    if enveloped {
        set.without(signature)
    } else {
        set
    }
}

/// The nodes of a target, without comments, where it is the document or one element (XML Signature 1.1, section 4.4.3.3).
pub fn target_set<'a>(doc: Doc<'a>, place: Place) -> Option<NodeSet<'a>>
    requires { HasPlace doc place }
    ensures set { option_map set_in result ≡ set_found (found_in doc.entry place) }
    ensures doc { IfSome result (λ set. doc_in set ≡ doc.entry) }
    ensures first { IfSome result (λ set. (set_in set).removed ≡ None) }
{
    match place {
        Place::Document => Some(NodeSet::whole(doc).without_comments()),
        Place::Named(IdAnswer::One(apex)) => Some(NodeSet::subtree(doc, apex).without_comments()),
        _ => None,
    }
}

/// Whether the nodes that a Reference of a signature names hold an element. It looks at no octets.
pub fn is_reached(doc: Doc<'_>, signature: NodeId, place: NodeId, reference: Reference) -> bool
    requires signature { Has doc signature }
    requires place { IsThere doc place }
    requires reference { IsReference doc reference }
    ensures { result ≡ is_reached (document_in doc.entry) (path_in doc.entry signature) (spot_of doc.entry place) (spot_of doc.entry reference.node) }
{
    match node_set_of(doc, signature, reference) {
        Some(set) => lies_in(&set, place),
        None => false,
    }
}

// Whether a set holds an element.
fn lies_in(set: &NodeSet<'_>, place: NodeId) -> bool
    requires { IsThere (doc_in set.now) place }
    ensures { result ≡ lies_in (set_in set.now) (path_in (doc_in set.now) place) }
{
    set.has(place)
}
