//! What the URI of a Reference names.

ghost use Rattle.std.specs.Prelude.{◌≡◌, IfOk};
ghost use Rattle.std.specs.Str.{chars};
ghost use Rattle.doc_spans.specs.Pieces.{characters_left};
ghost use Rattle.doc_spans.specs.declared.documents.Doc.{Doc};
ghost use Rattle.doc_spans.specs.Seen.{document_in};
ghost use Rattle.node_index.specs.Identifiers.{AreOf};
ghost use Rattle.signature_model.specs.Chains.{place, place_named};
ghost use Rattle.signature_model.specs.Parts.{uri};
ghost use Rattle.signature_elements.specs.Standing.{spot_of, IsThere};
ghost use Rattle.reference_chains.specs.Places.{found, found_in, HasPlace};

use doc_spans::{Doc, NodeId, Pieces};
use node_index::{Identifiers, gathered};
use node_sets::IdAnswer;
use signature_elements::attribute;
use std::alloc::Global;
use xa_io::OutOfMemory;
use xml_items::classes::first;

/// What the URI of a Reference names (XML Signature 1.1, sections 4.4.3.1 and 4.4.3.3).
#[derive(Clone, Copy)]
pub enum Place {
    /// The document: the URI is empty, or there is none.
    Document,
    /// The element with an identifier: the URI is `#` and the identifier.
    Named(IdAnswer),
    /// Octets outside of the document: each other URI.
    External,
}

impl Place {
    ghost use Rattle.reference_chains.specs.Places.{is_outside};

    /// Whether it is outside of the document.
    pub fn is_external(self) -> bool
        ensures { (doc : Doc) → result ≡ is_outside (found_in doc self) }
    {
        matches!(self, Place::External)
    }
}

/// The URI of a Reference; the empty text where it has none.
pub fn uri_of<'a>(doc: Doc<'a>, reference: NodeId) -> Pieces<'a>
    requires { IsThere doc reference }
    ensures { characters_left result ≡ uri (spot_of doc.entry reference) }
{
    match attribute(doc, reference, "URI") {
        Some(value) => value,
        None => Pieces::of(""),
    }
}

/// Finds what the URI of a Reference names. An identifier is looked up once among those of the document.
pub fn place_of(
    alloc: Global,
    doc: Doc<'_>,
    identifiers: &Identifiers,
    reference: NodeId,
) -> Result<Place, OutOfMemory>
    requires there { IsThere doc reference }
    requires identifiers { AreOf doc identifiers.now }
    ensures found { IfOk result (λ p. found_in doc.entry p ≡ found (document_in doc.entry) (place (spot_of doc.entry reference))) }
    ensures has { IfOk result (HasPlace doc.entry) }
{
    let uri = gathered(alloc, uri_of(doc, reference))?;
    Ok(place_named(identifiers, uri.as_str()))
}

/// What a URI names, by the identifiers of the document. An identifier is looked up once; no memory is taken.
pub fn place_named(identifiers: &Identifiers, uri: &str) -> Place
    ensures found { (doc : Doc) → AreOf doc identifiers.now → found_in doc result ≡ found (document_in doc) (place_named (chars uri.now)) }
    ensures has { (doc : Doc) → AreOf doc identifiers.now → HasPlace doc result }
{
    match first(uri) {
        None => Place::Document,
        Some((c, identifier)) => {
            if c == '#' {
                Place::Named(identifiers.find(identifier))
            } else {
                Place::External
            }
        }
    }
}
