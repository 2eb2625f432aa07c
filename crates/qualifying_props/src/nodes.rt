//! The parts of a signature that are one element each, by their nodes.

ghost use Rattle.std.specs.Prelude.{◌≡◌, Some, option_map};
ghost use Rattle.doc_spans.specs.Seen.{Has, document_in};
ghost use Rattle.signature_elements.specs.Standing.{spot_of, IsThere};
ghost use Rattle.signature_model.specs.Parts as model;
ghost use Rattle.signature_elements.specs.DigestKinds.{kind_in};
ghost use Rattle.signature_parts.specs.Parts.{IsPart};
ghost use Rattle.qualifying_props.specs.Digests.{algorithm};
ghost use Rattle.qualifying_props.specs.PartsOf.{cert_method};
ghost use Rattle.qualifying_props.specs.Nodes.{AreNodes, IsShaped};

use algorithms::DigestKind;
use doc_spans::{Doc, NodeId};
use signature_elements::digest_kind;
use signature_parts::{
    certificate_digest, digest_method, key_info, method, qualifying, signed_info, unsigned,
    unsigned_signature, value,
};

// The parts of a signature that are one element each.
#[derive(Clone, Copy)]
pub(crate) struct PartNodes {
    pub(crate) signature: NodeId,
    pub(crate) signed_info: NodeId,
    pub(crate) value: NodeId,
    pub(crate) host: NodeId,
    pub(crate) method: NodeId,
    pub(crate) key_info: NodeId,
}

// The element into which new properties are put.
fn host(doc: Doc<'_>, signature: NodeId) -> Option<NodeId>
    requires { Has doc signature }
    ensures { IsPart doc.entry (model.host (document_in doc.entry) (spot_of doc.entry signature)) result }
{
    if let Some(node) = unsigned_signature(doc, signature) {
        return Some(node);
    }
    if let Some(node) = unsigned(doc, signature) {
        return Some(node);
    }
    qualifying(doc, signature)
}

// Those of a signature without a fault in its shape.
pub(crate) fn part_nodes(doc: Doc<'_>, signature: NodeId) -> PartNodes
    requires there { IsThere doc signature }
    requires shaped { IsShaped (document_in doc) (spot_of doc signature) }
    ensures { AreNodes doc.entry signature result }
{
    PartNodes {
        signature,
        signed_info: signed_info(doc, signature).unwrap(),
        value: value(doc, signature).unwrap(),
        host: host(doc, signature).unwrap(),
        method: method(doc, signature).unwrap(),
        key_info: key_info(doc, signature).unwrap(),
    }
}

// The digest algorithm of the first Cert, by its name.
fn named_kind(doc: Doc<'_>, signature: NodeId) -> DigestKind
    requires there { IsThere doc signature }
    requires shaped { IsShaped (document_in doc) (spot_of doc signature) }
    ensures { model.digest_kind (cert_method (document_in doc.entry) (spot_of doc.entry signature)) ≡ Some (kind_in result) }
{
    let method = digest_method(doc, certificate_digest(doc, signature)).unwrap();
    digest_kind(doc, method).unwrap()
}

// The digest algorithm of the first Cert.
pub(crate) fn cert_digest_kind(doc: Doc<'_>, signature: NodeId) -> DigestKind
    requires there { IsThere doc signature }
    requires shaped { IsShaped (document_in doc) (spot_of doc signature) }
    ensures { option_map algorithm (model.digest_kind (cert_method (document_in doc.entry) (spot_of doc.entry signature))) ≡ Some result }
{
    named_kind(doc, signature)
}
