//! The element that new unsigned properties are put into (EN 319 132-1, clause 4.3).

ghost use Rattle.std.specs.Prelude.{◌≡◌, not};
ghost use Rattle.doc_spans.specs.Seen.{Has, document_in};
ghost use Rattle.signature_elements.specs.Standing.{spot_of};
ghost use Rattle.item_contents.specs.Hosts.{IsHost, closing, opening};

use doc_spans::{Doc, NodeId};
use signature_parts::{unsigned, unsigned_signature};

// The innermost of the three elements that hold unsigned properties, where there is one.
#[derive(Clone, Copy)]
pub(crate) enum Host {
    UnsignedSignatureProperties,
    UnsignedProperties,
    QualifyingProperties,
}

impl Host {
    // The start tags of the elements that are missing in it.
    pub(crate) fn opening(self) -> &'static [u8]
        ensures { result.now ≡ opening self }
    {
        match self {
            Host::UnsignedSignatureProperties => b"",
            Host::UnsignedProperties => {
                b"<xades:UnsignedSignatureProperties xmlns:xades=\"http://uri.etsi.org/01903/v1.3.2#\">"
            }
            Host::QualifyingProperties => {
                b"<xades:UnsignedProperties xmlns:xades=\"http://uri.etsi.org/01903/v1.3.2#\"><xades:UnsignedSignatureProperties xmlns:xades=\"http://uri.etsi.org/01903/v1.3.2#\">"
            }
        }
    }

    // Their end tags.
    pub(crate) fn closing(self) -> &'static [u8]
        ensures { result.now ≡ closing self }
    {
        match self {
            Host::UnsignedSignatureProperties => b"",
            Host::UnsignedProperties => b"</xades:UnsignedSignatureProperties>",
            Host::QualifyingProperties => {
                b"</xades:UnsignedSignatureProperties></xades:UnsignedProperties>"
            }
        }
    }
}

// The host of a signature.
pub(crate) fn host_of(doc: Doc<'_>, signature: NodeId) -> Host
    requires { Has doc signature }
    ensures { IsHost (document_in doc.entry) (spot_of doc.entry signature) result }
{
    if unsigned_signature(doc, signature).is_some() {
        Host::UnsignedSignatureProperties
    } else if unsigned(doc, signature).is_some() {
        Host::UnsignedProperties
    } else {
        Host::QualifyingProperties
    }
}
