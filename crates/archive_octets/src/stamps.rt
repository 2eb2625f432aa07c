//! The octets that the time-stamps of a signature cover.

ghost use Rattle.std.specs.Prelude.{◌≡◌, ◌<◌, Some, IfOk, length, option_map, slice_get, take};
ghost use Rattle.archive_octets.specs.Kinds.{kind_in};
ghost use Rattle.doc_spans.specs.Seen.{document_in};
ghost use Rattle.qualifying_props.specs.PartsOf.{AreParts};
ghost use Rattle.reference_chains.specs.HandedIn.{handed_in};
ghost use Rattle.references.specs.RefsOf.{AreRefsOf};
ghost use Rattle.signature_elements.specs.Standing.{spot_of};
ghost use Rattle.signature_model.specs.Octets.{next_octets, octets_at};
ghost use Rattle.signature_model.specs.Parts.{properties};

use crate::archives::archive_octets;
use crate::forms::{next_form, stamp_form};
use crate::kinds::StampKind;
use crate::signed::value_text;
use doc_spans::Doc;
use qualifying_props::{PropertyKind, SignatureParts};
use references::{Externals, Refs};
use std::alloc::Global;
use xa_io::{Octs, OutOfMemory};

/// The octets that an unsigned property of a signature covers, by its number from 0, in the canonical form that its own
/// `CanonicalizationMethod` names, else in Canonical XML 1.0 without comments (EN 319 132-1, clause 5.1.4).
///
/// A time-stamp on the signature covers the element `SignatureValue` (clause 5.3). One on the archive covers, one behind the other, what the
/// References name, `SignedInfo`, `SignatureValue`, `KeyInfo`, the unsigned properties before it, and the Objects but the one with the
/// qualifying properties (clause 5.5.2). Another property covers nothing. Err: memory could not be had.
pub fn octets_at(
    alloc: Global,
    doc: Doc<'_>,
    parts: &SignatureParts,
    refs: &Refs,
    externals: &Externals,
    property: usize,
) -> Result<Octs, OutOfMemory>
    requires parts { AreParts doc parts.now }
    requires refs { AreRefsOf doc parts.now refs.now }
    requires property { property < length parts.now.properties }
    ensures { let document = document_in doc.entry in let signature = spot_of doc.entry parts.now.signature in let all = properties document signature in
        IfOk result (λ octets. option_map (octets_at (handed_in externals.now) document signature (take property all)) (slice_get all property) ≡ Some octets) }
{
    let form = stamp_form(doc, parts.property_node(property));
    match parts.property_kind(property) {
        PropertyKind::SignatureStamp => value_text(alloc, doc, parts, &form),
        PropertyKind::ArchiveStamp => {
            archive_octets(alloc, doc, parts, refs, externals, &form, property)
        }
        PropertyKind::Material => Ok(Octs::new(alloc)),
        PropertyKind::Passed => Ok(Octs::new(alloc)),
    }
}

/// The octets that the next time-stamp of a kind covers, which is put behind all unsigned properties that are there, and whose form is the
/// exclusive one without comments (Exclusive XML Canonicalization 1.0). Err: memory could not be had.
pub fn next_octets(
    alloc: Global,
    doc: Doc<'_>,
    parts: &SignatureParts,
    refs: &Refs,
    externals: &Externals,
    kind: StampKind,
) -> Result<Octs, OutOfMemory>
    requires parts { AreParts doc parts.now }
    requires refs { AreRefsOf doc parts.now refs.now }
    ensures { IfOk result (λ octets. octets ≡ next_octets (kind_in kind) (handed_in externals.now) (document_in doc.entry) (spot_of doc.entry parts.now.signature)) }
{
    let form = next_form();
    match kind {
        StampKind::Signature => value_text(alloc, doc, parts, &form),
        StampKind::Archive => archive_octets(
            alloc,
            doc,
            parts,
            refs,
            externals,
            &form,
            parts.properties(),
        ),
    }
}
