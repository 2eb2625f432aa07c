//! The digest that a Reference's DigestMethod names.

ghost use Rattle.std.specs.Prelude.{◌≡◌, ◌∷◌, [], option_map};
ghost use Rattle.doc_spans.specs.Seen.{document_in};
ghost use Rattle.signature_model.specs.Parts.{digest_kind, digest_methods};
ghost use Rattle.signature_elements.specs.DigestKinds.{kind_in};
ghost use Rattle.signature_elements.specs.Standing.{spot_of, IsThere};

use algorithms::DigestKind;
use doc_spans::{Doc, NodeId};
use signature_elements::{digest_kind, ds, first_in};

/// The digest that a Reference's first DigestMethod names (XML Signature 1.1, section 4.4.3.5); none where it names none that is known.
pub fn digest_kind_of(doc: Doc<'_>, reference: NodeId) -> Option<DigestKind>
    requires { IsThere doc reference }
    ensures { option_map kind_in result ≡ digest_kind (digest_methods (document_in doc.entry) (spot_of doc.entry reference ∷ [])) }
{
    match first_in(doc, Some(reference), ds("DigestMethod")) {
        Some(method) => digest_kind(doc, method),
        None => None,
    }
}
