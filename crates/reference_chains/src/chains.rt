//! The chain of a Reference's transforms.

ghost use Rattle.std.specs.Prelude.{◌≡◌, Bool, IfSome, map, option_map, Some};
ghost use Rattle.doc_spans.specs.Seen.{document_in};
ghost use Rattle.signature_model.specs.Chains as model;
ghost use Rattle.signature_model.specs.Chains.{chain, chain_on, transform_of};
ghost use Rattle.signature_model.specs.Parts.{transforms};
ghost use Rattle.signature_model.specs.Spots.{elements_in};
ghost use Rattle.signature_elements.specs.Standing.{spot_of, IsThere};
ghost use Rattle.reference_chains.specs.ChainsIn.{chain_in, transform_in, HasChain, HasTransform};
ghost use Rattle.reference_chains.specs.Places.{found, found_in};
ghost use Rattle.reference_chains.specs.ChainSteps.{more, more_all};

use crate::places::Place;
use crate::transforms::{Transform, transform_of};
use doc_spans::{Doc, NodeId};
use signature_elements::{called, ds, elements};

/// What a chain of transforms makes of nodes, or of octets that are handed in.
#[derive(Clone, Copy)]
pub enum Made {
    /// The same.
    NodesAlone,
    /// The octets of nodes in the canonical form that this Transform names (XML Signature 1.1, section 6.6.1).
    InForm(NodeId),
    /// The octets that the text spells in base64 (section 6.6.2).
    Decoded,
}

/// A chain of transforms (XML Signature 1.1, section 4.4.3.4). Which lists of transforms are chains is this project's own choice: at most
/// the enveloped signature transform, and then at most one canonical form or base64.
#[derive(Clone, Copy)]
pub struct Chain {
    /// Whether the signature that holds the Reference is taken away first (section 6.6.4).
    pub enveloped: bool,
    /// What is made then.
    pub made: Made,
}

/// The chain of a Reference's transforms, by what its URI names; none where they are no chain. Octets from outside may only be decoded.
pub fn chain_of(doc: Doc<'_>, reference: NodeId, place: Place) -> Option<Chain>
    requires there { IsThere doc reference }
    requires found { found_in doc place ≡ found (document_in doc) (model.place (spot_of doc reference)) }
    ensures chain { option_map (chain_in doc.entry) result ≡ chain (document_in doc.entry) (spot_of doc.entry reference) }
    ensures has { IfSome result (HasChain doc.entry) }
{
    chain_on(doc, reference, place.is_external())
}

// The same, where the URI names what is outside or not.
fn chain_on(doc: Doc<'_>, reference: NodeId, external: bool) -> Option<Chain>
    requires { IsThere doc reference }
    ensures chain { option_map (chain_in doc.entry) result ≡ chain_on external (map (transform_of (document_in doc.entry)) (transforms (document_in doc.entry) (spot_of doc.entry reference))) }
    ensures has { IfSome result (HasChain doc.entry) }
{
    let mut chain = Chain {
        enveloped: false,
        made: Made::NodesAlone,
    };
    for list in called(doc, reference, ds("Transforms")) {
        chain = with_list(doc, chain, list, external)?;
    }
    Some(chain)
}

// The chain with the transforms that one more `Transforms` holds.
fn with_list(doc: Doc<'_>, before: Chain, list: NodeId, external: bool) -> Option<Chain>
    requires list { IsThere doc list }
    requires chain { HasChain doc before }
    ensures chain { option_map (chain_in doc.entry) result ≡ more_all external (Some (chain_in doc.entry before)) (map (transform_of (document_in doc.entry)) (elements_in (document_in doc.entry) (spot_of doc.entry list))) }
    ensures has { IfSome result (HasChain doc.entry) }
{
    let mut chain = before;
    for node in elements(doc, list) {
        chain = with_transform(chain, transform_of(doc, node), external)?;
    }
    Some(chain)
}

// The chain with one more transform.
fn with_transform(chain: Chain, transform: Transform, external: bool) -> Option<Chain>
    ensures chain { (doc : Doc) → option_map (chain_in doc) result ≡ more external (chain_in doc chain) (transform_in doc transform) }
    ensures has { (doc : Doc) → HasChain doc chain → HasTransform doc transform → IfSome result (HasChain doc) }
{
    if !matches!(chain.made, Made::NodesAlone) {
        return None;
    }
    let enveloped = chain.enveloped;
    match transform {
        Transform::Enveloped if !enveloped && !external => Some(Chain {
            enveloped: true,
            made: Made::NodesAlone,
        }),
        Transform::Canonical(node) if !external => Some(Chain {
            enveloped,
            made: Made::InForm(node),
        }),
        Transform::Base64 => Some(Chain {
            enveloped,
            made: Made::Decoded,
        }),
        _ => None,
    }
}
