//! One transform of a Reference.

ghost use Rattle.std.specs.Prelude.{◌≡◌};
ghost use Rattle.doc_spans.specs.Pieces.{characters_left};
ghost use Rattle.doc_spans.specs.Seen.{document_in};
ghost use Rattle.signature_model.specs.Chains.{transform_of, transform_named};
ghost use Rattle.signature_model.specs.Parts.{form_in};
ghost use Rattle.signature_elements.specs.Standing.{spot_of, IsThere};
ghost use Rattle.reference_chains.specs.ChainsIn.{transform_in, HasTransform};

use canon_forms::read_form;
use doc_spans::{Doc, NodeId, Pieces};
use signature_elements::{attribute, ds, is_called};

const ENVELOPED: &str = "http://www.w3.org/2000/09/xmldsig#enveloped-signature";

const BASE64: &str = "http://www.w3.org/2000/09/xmldsig#base64";

// What a transform does.
#[derive(Clone, Copy)]
pub(crate) enum Transform {
    // It takes the signature away.
    Enveloped,
    // It writes nodes in the form that this element names.
    Canonical(NodeId),
    // It decodes.
    Base64,
    // Something else.
    Other,
}

// What an element in `Transforms` does as a transform.
pub(crate) fn transform_of(doc: Doc<'_>, node: NodeId) -> Transform
    requires { IsThere doc node }
    ensures transform { transform_in doc.entry result ≡ transform_of (document_in doc.entry) (spot_of doc.entry node) }
    ensures has { HasTransform doc.entry result }
{
    if !is_called(doc, node, ds("Transform")) {
        return Transform::Other;
    }
    match attribute(doc, node, "Algorithm") {
        Some(name) => transform_named(doc, node, name),
        None => Transform::Other,
    }
}

// What a transform with this algorithm does.
fn transform_named(doc: Doc<'_>, node: NodeId, name: Pieces<'_>) -> Transform
    requires { IsThere doc node }
    ensures transform { transform_in doc.entry result ≡ transform_named (form_in (document_in doc.entry) (spot_of doc.entry node)) (characters_left name.entry) }
    ensures has { HasTransform doc.entry result }
{
    if name.same(ENVELOPED) {
        Transform::Enveloped
    } else if name.same(BASE64) {
        Transform::Base64
    } else if read_form(doc, node).is_some() {
        Transform::Canonical(node)
    } else {
        Transform::Other
    }
}
