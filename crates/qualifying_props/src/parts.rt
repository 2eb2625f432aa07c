//! The parts of a signature in memory.

ghost use Rattle.std.specs.Prelude.{◌≡◌, ◌-◌, ◌<◌, ◌≤◌, length, slice_get, Some, option_and_then, option_map};
ghost use Rattle.std.specs.Option.{option_copied};
ghost use Rattle.std.specs.Str.{chars};
ghost use Rattle.qualifying_props.specs.Shown.{parts_at, token_at};

use crate::nodes::PartNodes;
use crate::property::Property;
use algorithms::DigestKind;
use doc_spans::NodeId;
use signature_parts::PropertyKind;
use std::marker::Model;
use xa_io::Octs;

// Certificates, CRLs and tokens: those of KeyInfo and of the unsigned properties.
#[derive(Drop)]
pub(crate) struct Values {
    pub(crate) key_certs: Vec<Octs>,
    pub(crate) properties: Vec<Property>,
}

// The digest of the first Cert, and the number of the certificate of KeyInfo that has it.
#[derive(Drop)]
pub(crate) struct Signer {
    pub(crate) kind: DigestKind,
    pub(crate) digest: Octs,
    pub(crate) number: Option<usize>,
}

/// The signature of a document with its parts: numbers of nodes and decoded octets, without the document.
///
/// Which elements they are, and which octets, is told where it is read (`read_signature`).
#[derive(Drop)]
pub struct SignatureParts {
    pub(crate) nodes: PartNodes,
    pub(crate) references: Vec<NodeId>,
    pub(crate) objects: Vec<NodeId>,
    pub(crate) method: String,
    pub(crate) value: Octs,
    pub(crate) values: Values,
    pub(crate) has_values: bool,
    pub(crate) signer: Signer,
}

impl Model for SignatureParts {
    ghost use Rattle.std.specs.Prelude.{map, string_bytes};
    ghost use Rattle.std.specs.Str.{chars};
    ghost use Rattle.qualifying_props.specs.Properties.{shown_property};
    ghost use Rattle.qualifying_props.specs.Shown.{Shown};

    ghost Value = { Shown };

    ghost view = { λ p. record {
      signature = p.nodes.signature;
      signed_info = p.nodes.signed_info;
      value_node = p.nodes.value;
      host = p.nodes.host;
      method_node = p.nodes.method;
      key_info = p.nodes.key_info;
      method = chars (string_bytes p.method);
      value = p.value;
      references = p.references.items;
      objects = p.objects.items;
      key_certs = p.values.key_certs.items;
      properties = map shown_property p.values.properties.items;
      has_values = p.has_values;
      digest_kind = p.signer.kind;
      digest = p.signer.digest;
      signing_cert = p.signer.number;
    } };
}

impl SignatureParts {
    /// The `Signature`.
    pub fn signature(&self) -> NodeId
        ensures { result ≡ self.now.signature }
    {
        self.nodes.signature
    }

    /// Its `SignedInfo` (XML Signature 1.1, section 4.4).
    pub fn signed_info(&self) -> NodeId
        ensures { result ≡ self.now.signed_info }
    {
        self.nodes.signed_info
    }

    /// Its `SignatureValue` (XML Signature 1.1, section 4.3).
    pub fn value_node(&self) -> NodeId
        ensures { result ≡ self.now.value_node }
    {
        self.nodes.value
    }

    /// The innermost of `UnsignedSignatureProperties`, `UnsignedProperties` and `QualifyingProperties` that is there: new properties are put
    /// last into it (EN 319 132-1, clause 4.3).
    pub fn host(&self) -> NodeId
        ensures { result ≡ self.now.host }
    {
        self.nodes.host
    }

    /// The `CanonicalizationMethod` of `SignedInfo` (XML Signature 1.1, section 4.4.1).
    pub fn method_node(&self) -> NodeId
        ensures { result ≡ self.now.method_node }
    {
        self.nodes.method
    }

    /// The `KeyInfo` (XML Signature 1.1, section 4.5).
    pub fn key_info(&self) -> NodeId
        ensures { result ≡ self.now.key_info }
    {
        self.nodes.key_info
    }

    /// The `Algorithm` of the `SignatureMethod` (XML Signature 1.1, section 4.4.2).
    pub fn method(&self) -> &str
        ensures { chars result.now ≡ self.now.method }
    {
        self.method.as_str()
    }

    /// The signature value, decoded; empty where `SignatureValue` is blank.
    pub fn value(&self) -> &[u8]
        ensures { result.now ≡ self.now.value }
    {
        self.value.as_slice()
    }

    /// How many References there are.
    pub fn references(&self) -> usize
        ensures { result ≡ length self.now.references }
    {
        self.references.len()
    }

    /// A Reference, by its number from 1.
    pub fn reference_node(&self, k: u32) -> NodeId
        requires { (1 ≤ k) × (k ≤ length self.now.references) }
        ensures { slice_get self.now.references (k - 1) ≡ Some result }
    {
        self.references[(k - 1) as usize]
    }

    /// How many Objects there are, but the one with the qualifying properties.
    pub fn objects(&self) -> usize
        ensures { result ≡ length self.now.objects }
    {
        self.objects.len()
    }

    /// Such an Object, by its number from 0.
    pub fn object_node(&self, number: usize) -> NodeId
        requires { number < length self.now.objects }
        ensures { slice_get self.now.objects number ≡ Some result }
    {
        self.objects[number]
    }

    /// How many certificates `KeyInfo` has.
    pub fn key_certs(&self) -> usize
        ensures { result ≡ length self.now.key_certs }
    {
        self.values.key_certs.len()
    }

    /// A certificate of `KeyInfo`, by its number from 0: its DER octets.
    pub fn key_cert(&self, number: usize) -> &[u8]
        requires { number < length self.now.key_certs }
        ensures { slice_get self.now.key_certs number ≡ Some result.now }
    {
        self.values.key_certs[number].as_slice()
    }

    /// How many unsigned signature properties there are.
    pub fn properties(&self) -> usize
        ensures { result ≡ length self.now.properties }
    {
        self.values.properties.len()
    }

    /// The kind of a property, by its number from 0.
    pub fn property_kind(&self, number: usize) -> PropertyKind
        requires { number < length self.now.properties }
        ensures { option_map (λ property. property.kind) (slice_get self.now.properties number) ≡ Some result }
    {
        self.values.properties[number].kind
    }

    /// The element of a property.
    pub fn property_node(&self, number: usize) -> NodeId
        requires { number < length self.now.properties }
        ensures { option_map (λ property. property.node) (slice_get self.now.properties number) ≡ Some result }
    {
        self.values.properties[number].node
    }

    /// The token of a property that is a time-stamp: its DER octets.
    pub fn token(&self, number: usize) -> Option<&[u8]>
        requires { number < length self.now.properties }
        ensures { option_copied result ≡ token_at self.now number }
    {
        match &self.values.properties[number].token {
            Some(token) => Some(token.as_slice()),
            None => None,
        }
    }

    /// How many certificates and CRLs stand in a property.
    pub fn parts_in(&self, property: usize) -> usize
        requires { property < length self.now.properties }
        ensures { result ≡ length (parts_at self.now property) }
    {
        self.values.properties[property].parts.len()
    }

    /// One of them, by its number from 0 in document order: its DER octets.
    pub fn part_in(&self, property: usize, number: usize) -> &[u8]
        requires { number < length (parts_at self.now property) }
        ensures { slice_get (parts_at self.now property) number ≡ Some result.now }
    {
        self.values.properties[property].parts[number].as_slice()
    }

    /// Whether there are `CertificateValues` or `RevocationValues` outside `TimeStampValidationData`.
    pub fn has_values(&self) -> bool
        ensures { result ≡ self.now.has_values }
    {
        self.has_values
    }

    /// The digest algorithm of the first `Cert` of `SigningCertificateV2` (EN 319 132-1, clause 5.2.2).
    pub fn cert_digest_kind(&self) -> DigestKind
        ensures { result ≡ self.now.digest_kind }
    {
        self.signer.kind
    }

    /// Its digest.
    pub fn cert_digest(&self) -> &[u8]
        ensures { result.now ≡ self.now.digest }
    {
        self.signer.digest.as_slice()
    }

    /// The number of the first certificate of `KeyInfo` with that digest, the signing certificate; none exactly where no certificate of
    /// `KeyInfo` has it.
    pub fn signing_cert(&self) -> Option<usize>
        ensures { result ≡ self.now.signing_cert }
    {
        self.signer.number
    }
}
