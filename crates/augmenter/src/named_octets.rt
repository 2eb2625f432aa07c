//! The digests of the octets that URIs name in a document as it is (XML Signature 1.1, section 3.1.1).

ghost use Rattle.std.specs.Prelude.{◌≡◌, List, ℕ, IfOk, length, map};
ghost use Rattle.std.specs.Str.{chars};
ghost use Rattle.algorithms.specs.Digests.{digest_of};
ghost use Rattle.doc_spans.specs.Seen.{document_in};
ghost use Rattle.qualifying_props.specs.Digests.{digest};
ghost use Rattle.reference_chains.specs.HandedIn.{handed_in};
ghost use Rattle.reference_chains.specs.Places.{HasPlace, found, found_in};
ghost use Rattle.signature_model.specs.Chains.{place_named};
ghost use Rattle.signature_model.specs.Prepared.{named_octets};
ghost use Rattle.augmenter.specs.Targets.{ArePlaces};

use algorithms::{Digest, DigestKind};
use canon_forms::{Form, Prefixes, to_vec};
use doc_spans::Doc;
use reference_chains::{Externals, Place, target_set};
use signature_checks::digest_of;
use signature_drafts::Draft;
use std::alloc::Global;
use xa_io::OutOfMemory;

// The digest of the octets that a URI names: the exclusive canonical form of the document or of an element, without comments, or what is
// handed in.
fn named_digest(
    alloc: Global,
    doc: Doc<'_>,
    kind: DigestKind,
    uri: &str,
    place: Place,
    externals: &Externals,
) -> Result<Digest, OutOfMemory>
    requires place { HasPlace doc place }
    requires found { found_in doc place ≡ found (document_in doc) (place_named (chars uri.now)) }
    ensures { IfOk result (λ made. made ≡ digest_of kind (named_octets (handed_in externals.now) (document_in doc.entry) (chars uri.now))) }
{
    match target_set(doc, place) {
        Some(set) => {
            let form = Form::Exclusive {
                comments: false,
                prefixes: Prefixes::none(),
            };
            let text = to_vec(alloc, &set, &form)?;
            Ok(digest_of(kind, text.as_slice()))
        }
        None => match externals.get(uri) {
            Some(octets) => Ok(digest_of(kind, octets)),
            None => Ok(digest_of(kind, &[])),
        },
    }
}

// Such a digest for each URI of a draft.
pub(crate) fn named_digests(
    alloc: Global,
    doc: Doc<'_>,
    draft: &Draft,
    places: &[Place],
    externals: &Externals,
) -> Result<Vec<Digest>, OutOfMemory>
    requires { ArePlaces doc draft.now.references places.now }
    ensures { IfOk result (λ digests. digests.items ≡ map (λ uri. digest draft.now.digest (named_octets (handed_in externals.now) (document_in doc.entry) uri)) draft.now.references) }
{
    let mut digests = Vec::new(alloc);
    for number in 0..places.len() {
        let made = named_digest(
            alloc,
            doc,
            draft.digest(),
            draft.uri(number),
            places[number],
            externals,
        )?;
        match digests.push(made) {
            Ok(()) => {}
            Err(_) => return Err(OutOfMemory),
        }
    }
    Ok(digests)
}
