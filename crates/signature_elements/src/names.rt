//! Expanded names of elements (Namespaces in XML 1.0, section 2.1).

ghost use Rattle.std.specs.Prelude.{◌≡◌};
ghost use Rattle.std.specs.Str.{chars};
ghost use Rattle.doc_spans.specs.Seen.{Has, document_in, path_in};
ghost use Rattle.signature_model.specs.Vocabulary.{ds, xades, xadesv141};
ghost use Rattle.signature_model.specs.Spots.{is_called};
ghost use Rattle.signature_elements.specs.Names.{expanded};
ghost use Rattle.signature_elements.specs.Standing.{spot_of, is_element_at, IsThere};

use doc_spans::{Doc, Kind, NodeId};

/// The namespace name of XML Signature (XML Signature 1.1, section 1.3).
pub const DS: &str = "http://www.w3.org/2000/09/xmldsig#";

/// The namespace name of XAdES 1.3.2 (EN 319 132-1, clause 4.2).
pub const XADES: &str = "http://uri.etsi.org/01903/v1.3.2#";

/// The namespace name of XAdES 1.4.1 (EN 319 132-1, clause 4.2).
pub const XADESV141: &str = "http://uri.etsi.org/01903/v1.4.1#";

/// An expanded element name.
#[derive(Clone, Copy)]
pub struct ElementName<'n> {
    /// The namespace name, empty for none.
    pub space: &'n str,
    /// The local part.
    pub local: &'n str,
}

/// A name in the namespace of XML Signature.
pub fn ds<'n>(local: &'n str) -> ElementName<'n>
    ensures { expanded result ≡ ds (chars local.now) }
{
    ElementName { space: DS, local }
}

/// A name in the namespace of XAdES 1.3.2.
pub fn xades<'n>(local: &'n str) -> ElementName<'n>
    ensures { expanded result ≡ xades (chars local.now) }
{
    ElementName {
        space: XADES,
        local,
    }
}

/// A name in the namespace of XAdES 1.4.1.
pub fn xadesv141<'n>(local: &'n str) -> ElementName<'n>
    ensures { expanded result ≡ xadesv141 (chars local.now) }
{
    ElementName {
        space: XADESV141,
        local,
    }
}

/// Whether an element has a name, whatever its prefix (Namespaces in XML 1.0, section 6).
pub fn is_called(doc: Doc<'_>, node: NodeId, name: ElementName<'_>) -> bool
    requires { IsThere doc node }
    ensures { result ≡ is_called (expanded name.entry) (spot_of doc.entry node) }
{
    node_sets::is_named(doc, node, name.space, name.local)
}

/// Whether a node is an element.
pub fn is_element(doc: Doc<'_>, node: NodeId) -> bool
    requires { Has doc node }
    ensures { result ≡ is_element_at (document_in doc.entry) (path_in doc.entry node) }
{
    matches!(doc.kind(node), Kind::Element)
}
