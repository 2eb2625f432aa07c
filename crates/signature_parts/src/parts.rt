//! The parts of a signature that are one element each (XML Signature 1.1, section 4; EN 319 132-1, clauses 4.3, 4.4 and 5.2): the first
//! with its name in the first element that may hold it.

ghost use Rattle.std.specs.Prelude.{IfSome};
ghost use Rattle.doc_spans.specs.Seen.{Has, document_in};
ghost use Rattle.signature_elements.specs.Standing.{spot_of, spot_or_none, IsThere};
ghost use Rattle.signature_model.specs.Spots.{first};
ghost use Rattle.signature_model.specs.Parts.{signed_info, value, key_info, method, signature_method, qualifying_objects, qualifying, signed_properties, unsigned, unsigned_signature, signed_signature_properties, signing_time, signing_certificate_property, certificate_digest, digest_methods, digest_values, stamp_method, token_elements, transform_lists};
ghost use Rattle.signature_model.specs.Shape.{signed_data_properties};
ghost use Rattle.signature_parts.specs.Parts.{certificate, IsPart};

use crate::object_elements::first_qualifying_object;
use doc_spans::{Doc, NodeId};
use signature_elements::{ds, first_called, first_in, xades};

/// The `SignedInfo` of a signature.
pub fn signed_info(doc: Doc<'_>, signature: NodeId) -> Option<NodeId>
    requires { Has doc signature }
    ensures { IsPart doc.entry (signed_info (document_in doc.entry) (spot_of doc.entry signature)) result }
{
    first_called(doc, signature, ds("SignedInfo"))
}

/// The `SignatureValue` of a signature.
pub fn value(doc: Doc<'_>, signature: NodeId) -> Option<NodeId>
    requires { Has doc signature }
    ensures { IsPart doc.entry (value (document_in doc.entry) (spot_of doc.entry signature)) result }
{
    first_called(doc, signature, ds("SignatureValue"))
}

/// The `KeyInfo` of a signature.
pub fn key_info(doc: Doc<'_>, signature: NodeId) -> Option<NodeId>
    requires { Has doc signature }
    ensures { IsPart doc.entry (key_info (document_in doc.entry) (spot_of doc.entry signature)) result }
{
    first_called(doc, signature, ds("KeyInfo"))
}

/// The `CanonicalizationMethod` of the `SignedInfo`.
pub fn method(doc: Doc<'_>, signature: NodeId) -> Option<NodeId>
    requires { Has doc signature }
    ensures { IsPart doc.entry (method (document_in doc.entry) (spot_of doc.entry signature)) result }
{
    first_in(
        doc,
        signed_info(doc, signature),
        ds("CanonicalizationMethod"),
    )
}

/// The `SignatureMethod` of the `SignedInfo`.
pub fn signature_method(doc: Doc<'_>, signature: NodeId) -> Option<NodeId>
    requires { Has doc signature }
    ensures { IsPart doc.entry (signature_method (document_in doc.entry) (spot_of doc.entry signature)) result }
{
    first_in(doc, signed_info(doc, signature), ds("SignatureMethod"))
}

/// The `QualifyingProperties` of a signature, in the first `Object` that has some.
pub fn qualifying(doc: Doc<'_>, signature: NodeId) -> Option<NodeId>
    requires { Has doc signature }
    ensures { IsPart doc.entry (qualifying (document_in doc.entry) (spot_of doc.entry signature)) result }
{
    first_in(
        doc,
        first_qualifying_object(doc, signature),
        xades("QualifyingProperties"),
    )
}

/// The `SignedProperties`.
pub fn signed_properties(doc: Doc<'_>, signature: NodeId) -> Option<NodeId>
    requires { Has doc signature }
    ensures { IsPart doc.entry (signed_properties (document_in doc.entry) (spot_of doc.entry signature)) result }
{
    first_in(doc, qualifying(doc, signature), xades("SignedProperties"))
}

/// The `UnsignedProperties`.
pub fn unsigned(doc: Doc<'_>, signature: NodeId) -> Option<NodeId>
    requires { Has doc signature }
    ensures { IsPart doc.entry (unsigned (document_in doc.entry) (spot_of doc.entry signature)) result }
{
    first_in(doc, qualifying(doc, signature), xades("UnsignedProperties"))
}

/// The `UnsignedSignatureProperties`.
pub fn unsigned_signature(doc: Doc<'_>, signature: NodeId) -> Option<NodeId>
    requires { Has doc signature }
    ensures { IsPart doc.entry (unsigned_signature (document_in doc.entry) (spot_of doc.entry signature)) result }
{
    first_in(
        doc,
        unsigned(doc, signature),
        xades("UnsignedSignatureProperties"),
    )
}

/// The `SignedSignatureProperties`.
pub fn signed_signature_properties(doc: Doc<'_>, signature: NodeId) -> Option<NodeId>
    requires { Has doc signature }
    ensures { IsPart doc.entry (signed_signature_properties (document_in doc.entry) (spot_of doc.entry signature)) result }
{
    first_in(
        doc,
        signed_properties(doc, signature),
        xades("SignedSignatureProperties"),
    )
}

/// The `SignedDataObjectProperties`.
pub fn signed_data_properties(doc: Doc<'_>, signature: NodeId) -> Option<NodeId>
    requires { Has doc signature }
    ensures { IsPart doc.entry (signed_data_properties (document_in doc.entry) (spot_of doc.entry signature)) result }
{
    first_in(
        doc,
        signed_properties(doc, signature),
        xades("SignedDataObjectProperties"),
    )
}

/// The `SigningTime`.
pub fn signing_time(doc: Doc<'_>, signature: NodeId) -> Option<NodeId>
    requires { Has doc signature }
    ensures { IsPart doc.entry (signing_time (document_in doc.entry) (spot_of doc.entry signature)) result }
{
    first_in(
        doc,
        signed_signature_properties(doc, signature),
        xades("SigningTime"),
    )
}

/// The `SigningCertificateV2`.
pub fn signing_certificate_property(doc: Doc<'_>, signature: NodeId) -> Option<NodeId>
    requires { Has doc signature }
    ensures { IsPart doc.entry (signing_certificate_property (document_in doc.entry) (spot_of doc.entry signature)) result }
{
    first_in(
        doc,
        signed_signature_properties(doc, signature),
        xades("SigningCertificateV2"),
    )
}

/// The first `Cert` of the `SigningCertificateV2`.
pub fn certificate(doc: Doc<'_>, signature: NodeId) -> Option<NodeId>
    requires { Has doc signature }
    ensures { IsPart doc.entry (certificate (document_in doc.entry) (spot_of doc.entry signature)) result }
{
    first_in(
        doc,
        signing_certificate_property(doc, signature),
        xades("Cert"),
    )
}

/// The `CertDigest` of the first `Cert`.
pub fn certificate_digest(doc: Doc<'_>, signature: NodeId) -> Option<NodeId>
    requires { Has doc signature }
    ensures { IsPart doc.entry (certificate_digest (document_in doc.entry) (spot_of doc.entry signature)) result }
{
    first_in(doc, certificate(doc, signature), xades("CertDigest"))
}

/// The `DigestMethod` of a Reference or of a `CertDigest` that may not exist.
pub fn digest_method(doc: Doc<'_>, holder: Option<NodeId>) -> Option<NodeId>
    requires { IfSome holder (IsThere doc) }
    ensures { IsPart doc.entry (digest_methods (document_in doc.entry) (spot_or_none doc.entry holder)) result }
{
    first_in(doc, holder, ds("DigestMethod"))
}

/// The `DigestValue` of a Reference or of a `CertDigest` that may not exist.
pub fn digest_value(doc: Doc<'_>, holder: Option<NodeId>) -> Option<NodeId>
    requires { IfSome holder (IsThere doc) }
    ensures { IsPart doc.entry (digest_values (document_in doc.entry) (spot_or_none doc.entry holder)) result }
{
    first_in(doc, holder, ds("DigestValue"))
}

/// The `CanonicalizationMethod` of a time-stamp.
pub fn stamp_method(doc: Doc<'_>, property: NodeId) -> Option<NodeId>
    requires { Has doc property }
    ensures { IsPart doc.entry (stamp_method (document_in doc.entry) (spot_of doc.entry property)) result }
{
    first_called(doc, property, ds("CanonicalizationMethod"))
}

/// The first `EncapsulatedTimeStamp` of a time-stamp.
pub fn token_element(doc: Doc<'_>, property: NodeId) -> Option<NodeId>
    requires { Has doc property }
    ensures { IsPart doc.entry (first (token_elements (document_in doc.entry) (spot_of doc.entry property))) result }
{
    first_called(doc, property, xades("EncapsulatedTimeStamp"))
}

/// The first `Transforms` of a Reference.
pub fn transform_list(doc: Doc<'_>, reference: NodeId) -> Option<NodeId>
    requires { Has doc reference }
    ensures { IsPart doc.entry (first (transform_lists (document_in doc.entry) (spot_of doc.entry reference))) result }
{
    first_called(doc, reference, ds("Transforms"))
}
