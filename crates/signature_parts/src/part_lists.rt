//! The parts of a signature that are several elements: References, data of its key and properties.

ghost use Rattle.std.specs.Prelude.{◌≡◌};
ghost use Rattle.doc_spans.specs.Seen.{Has, document_in};
ghost use Rattle.signature_elements.specs.Standing.{spot_of, IsThere};
ghost use Rattle.signature_model.specs.Parts.{references, properties, key_data, is_typed};
ghost use Rattle.signature_parts.specs.ListsLeft.{named_doc, named_left, all_doc, all_left};

use crate::lists::{ElementsIn, NamedIn};
use crate::parts::{key_info, signed_info, unsigned_signature};
use doc_spans::{Doc, NodeId};
use signature_elements::{attribute, ds};

/// The `Type` of the Reference that covers the signed properties (EN 319 132-1, clause 4.4.2).
pub const SIGNED_PROPERTIES_TYPE: &str = "http://uri.etsi.org/01903#SignedProperties";

/// The References of a signature.
pub fn references<'a>(doc: Doc<'a>, signature: NodeId) -> NamedIn<'a, 'static>
    requires { Has doc signature }
    ensures doc { named_doc result ≡ doc.entry }
    ensures spots { named_left result ≡ references (document_in doc.entry) (spot_of doc.entry signature) }
{
    NamedIn::of(doc, signed_info(doc, signature), ds("Reference"))
}

/// The `X509Data` elements of a signature's `KeyInfo`.
pub fn key_data<'a>(doc: Doc<'a>, signature: NodeId) -> NamedIn<'a, 'static>
    requires { Has doc signature }
    ensures doc { named_doc result ≡ doc.entry }
    ensures spots { named_left result ≡ key_data (document_in doc.entry) (spot_of doc.entry signature) }
{
    NamedIn::of(doc, key_info(doc, signature), ds("X509Data"))
}

/// The unsigned signature properties of a signature.
pub fn properties<'a>(doc: Doc<'a>, signature: NodeId) -> ElementsIn<'a>
    requires { Has doc signature }
    ensures doc { all_doc result ≡ doc.entry }
    ensures spots { all_left result ≡ properties (document_in doc.entry) (spot_of doc.entry signature) }
{
    ElementsIn::of(doc, unsigned_signature(doc, signature))
}

/// Whether a Reference is that to the signed properties, by its `Type`.
pub fn is_typed(doc: Doc<'_>, reference: NodeId) -> bool
    requires { IsThere doc reference }
    ensures { result ≡ is_typed (spot_of doc.entry reference) }
{
    match attribute(doc, reference, "Type") {
        Some(type_name) => type_name.same(SIGNED_PROPERTIES_TYPE),
        None => false,
    }
}
