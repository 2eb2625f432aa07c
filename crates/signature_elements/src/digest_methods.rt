//! Digest algorithms that methods name (XML Signature 1.1, section 6.2; RFC 9231, section 2.1.3).

ghost use Rattle.std.specs.Prelude.{◌≡◌, ◌∷◌, [], option_map};
ghost use Rattle.document_model.specs.Characters.{◌is◌};
ghost use Rattle.doc_spans.specs.Pieces.{characters_left};
ghost use Rattle.signature_model.specs.Vocabulary.{digest_name, digest_named};
ghost use Rattle.signature_model.specs.Parts.{digest_kind};
ghost use Rattle.signature_elements.specs.DigestKinds.{kind_in};
ghost use Rattle.signature_elements.specs.Standing.{spot_of, IsThere};

use crate::attributes::attribute;
use algorithms::DigestKind;
use doc_spans::{Doc, NodeId, Pieces};

/// The digest algorithm that a `DigestMethod` names; none where it names no known one.
pub fn digest_kind(doc: Doc<'_>, method: NodeId) -> Option<DigestKind>
    requires { IsThere doc method }
    ensures { option_map kind_in result ≡ digest_kind (spot_of doc.entry method ∷ []) }
{
    match attribute(doc, method, "Algorithm") {
        Some(name) => digest_named(name),
        None => None,
    }
}

fn digest_named(name: Pieces<'_>) -> Option<DigestKind>
    ensures { option_map kind_in result ≡ digest_named (characters_left name.entry) }
{
    if is_named(name, DigestKind::Sha256) {
        Some(DigestKind::Sha256)
    } else if is_named(name, DigestKind::Sha384) {
        Some(DigestKind::Sha384)
    } else if is_named(name, DigestKind::Sha512) {
        Some(DigestKind::Sha512)
    } else {
        None
    }
}

// Whether a name is that of an algorithm.
fn is_named(name: Pieces<'_>, kind: DigestKind) -> bool
    ensures { result ≡ (characters_left name.entry is digest_name (kind_in kind)) }
{
    name.same(kind.uri())
}
