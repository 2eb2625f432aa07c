//! What the URI of a Reference names (XML Signature 1.1, section 4.4.3.1).

ghost use Rattle.std.specs.Prelude.{◌≡◌};
ghost use Rattle.std.specs.Str.{chars};
ghost use Rattle.signature_drafts.specs.Uris.{target_of};

use xml_items::classes::first;

/// What the URI of a Reference names, whatever the identifier.
#[derive(Clone, Copy)]
pub enum UriTarget {
    /// The document: the URI is empty.
    Document,
    /// An element: the URI is `#` and its identifier.
    Element,
    /// Octets outside of the document: each other URI.
    Outside,
}

/// What a URI names.
pub fn target_of(uri: &str) -> UriTarget
    ensures { result ≡ target_of (chars uri.now) }
{
    match first(uri) {
        None => UriTarget::Document,
        Some((c, _)) => {
            if c == '#' {
                UriTarget::Element
            } else {
                UriTarget::Outside
            }
        }
    }
}
