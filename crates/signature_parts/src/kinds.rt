//! Kinds of unsigned properties (EN 319 132-1, clauses 5.3 to 5.5).

ghost use Rattle.std.specs.Prelude.{◌≡◌, codes};
ghost use Rattle.signature_elements.specs.Standing.{spot_of, IsThere};
ghost use Rattle.signature_model.specs.Spots.{is_called};
ghost use Rattle.signature_model.specs.Vocabulary.{xades, xadesv141};
ghost use Rattle.signature_model.specs.Parts.{kind_of, is_stamp, is_values, is_validation_data};
ghost use Rattle.signature_parts.specs.Kinds.{kind_in};

use doc_spans::{Doc, NodeId};
use signature_elements::{is_called, xades, xadesv141};

/// What an unsigned signature property is to a signature's chain of time-stamps.
#[derive(Clone, Copy, PartialEq, Eq)]
pub enum PropertyKind {
    /// A time-stamp on the signature value.
    SignatureStamp,
    /// A time-stamp on all that the signature has so far.
    ArchiveStamp,
    /// Certificates and revocation lists.
    Material,
    /// Another property, which is passed on.
    Passed,
}

/// The kind of a property, by its name.
pub fn kind_of(doc: Doc<'_>, property: NodeId) -> PropertyKind
    requires { IsThere doc property }
    ensures { kind_in result ≡ kind_of (spot_of doc.entry property) }
{
    if is_signature_stamp(doc, property) {
        PropertyKind::SignatureStamp
    } else if is_archive_stamp(doc, property) {
        PropertyKind::ArchiveStamp
    } else if is_values(doc, property) || is_validation_data(doc, property) {
        PropertyKind::Material
    } else {
        PropertyKind::Passed
    }
}

/// Whether a property is a time-stamp.
pub fn is_stamp(doc: Doc<'_>, property: NodeId) -> bool
    requires { IsThere doc property }
    ensures { result ≡ is_stamp (spot_of doc.entry property) }
{
    match kind_of(doc, property) {
        PropertyKind::SignatureStamp | PropertyKind::ArchiveStamp => true,
        PropertyKind::Material | PropertyKind::Passed => false,
    }
}

/// Whether an element is `CertificateValues` or `RevocationValues`.
pub fn is_values(doc: Doc<'_>, element: NodeId) -> bool
    requires { IsThere doc element }
    ensures { result ≡ is_values (spot_of doc.entry element) }
{
    is_certificate_values(doc, element) || is_revocation_values(doc, element)
}

/// Whether an element is `CertificateValues`.
pub fn is_certificate_values(doc: Doc<'_>, element: NodeId) -> bool
    requires { IsThere doc element }
    ensures { result ≡ is_called (xades (codes "CertificateValues")) (spot_of doc.entry element) }
{
    is_called(doc, element, xades("CertificateValues"))
}

/// Whether an element is `RevocationValues`.
pub fn is_revocation_values(doc: Doc<'_>, element: NodeId) -> bool
    requires { IsThere doc element }
    ensures { result ≡ is_called (xades (codes "RevocationValues")) (spot_of doc.entry element) }
{
    is_called(doc, element, xades("RevocationValues"))
}

/// Whether a property is `TimeStampValidationData`.
pub fn is_validation_data(doc: Doc<'_>, property: NodeId) -> bool
    requires { IsThere doc property }
    ensures { result ≡ is_validation_data (spot_of doc.entry property) }
{
    is_called(doc, property, xadesv141("TimeStampValidationData"))
}

fn is_signature_stamp(doc: Doc<'_>, property: NodeId) -> bool
    requires { IsThere doc property }
    ensures { result ≡ is_called (xades (codes "SignatureTimeStamp")) (spot_of doc.entry property) }
{
    is_called(doc, property, xades("SignatureTimeStamp"))
}

fn is_archive_stamp(doc: Doc<'_>, property: NodeId) -> bool
    requires { IsThere doc property }
    ensures { result ≡ is_called (xadesv141 (codes "ArchiveTimeStamp")) (spot_of doc.entry property) }
{
    is_called(doc, property, xadesv141("ArchiveTimeStamp"))
}
