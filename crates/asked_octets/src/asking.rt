//! The octets, where nothing stands against what is to be made.

ghost use Rattle.std.specs.Prelude.{◌≡◌, ◌≤◌, IfOk, length};
ghost use Rattle.doc_spans.specs.Seen.{bytes_in, document_in};
ghost use Rattle.qualifying_props.specs.PartsOf.{AreParts};
ghost use Rattle.reference_chains.specs.HandedIn.{handed_in};
ghost use Rattle.references.specs.RefsOf.{AreRefsOf};
ghost use Rattle.signature_checks.specs.Codes.{first_code};
ghost use Rattle.signature_checks.specs.Opening.{AreShort, unsigned_test};
ghost use Rattle.signature_elements.specs.Standing.{spot_of};
ghost use Rattle.asked_octets.specs.Asking.{IsAsked, archived_test, octets_over, purpose_tests, signed_test, stamped_test};

use crate::purposes::Purpose;
use archive_octets::{StampKind, next_octets, signed_octets};
use doc_spans::Doc;
use qualifying_props::SignatureParts;
use references::{Externals, Refs};
use signature_checks::{Code, Objection, is_signed, open};
use stamp_checks::has_stamp;
use std::alloc::Global;
use xa_io::{Octs, OutOfMemory};

// What stands against a signature that is to be stamped.
fn judge_stamped(doc: Doc<'_>, parts: &SignatureParts) -> Option<Code>
    requires { AreParts doc parts.now }
    ensures { result ≡ first_code (purpose_tests Purpose.SignatureStamp (document_in doc.entry) (spot_of doc.entry parts.now.signature)) }
{
    if !is_signed(doc, parts) {
        Some(Code::NotSigned)
    } else if has_stamp(parts, StampKind::Archive) {
        Some(Code::AfterArchive)
    } else {
        None
    }
}

// What stands against one that is to be archived.
fn judge_archived(doc: Doc<'_>, parts: &SignatureParts) -> Option<Code>
    requires { AreParts doc parts.now }
    ensures { result ≡ first_code (purpose_tests Purpose.ArchiveStamp (document_in doc.entry) (spot_of doc.entry parts.now.signature)) }
{
    if !is_signed(doc, parts) {
        Some(Code::NotSigned)
    } else if !has_stamp(parts, StampKind::Signature) {
        Some(Code::NotStamped)
    } else {
        None
    }
}

fn judge_valued(doc: Doc<'_>, parts: &SignatureParts) -> Option<Code>
    requires { AreParts doc parts.now }
    ensures { result ≡ first_code (purpose_tests Purpose.Value (document_in doc.entry) (spot_of doc.entry parts.now.signature)) }
{
    if is_signed(doc, parts) {
        Some(Code::AlreadySigned)
    } else {
        None
    }
}

fn judge(doc: Doc<'_>, parts: &SignatureParts, purpose: Purpose) -> Option<Code>
    requires { AreParts doc parts.now }
    ensures { result ≡ first_code (purpose_tests purpose (document_in doc.entry) (spot_of doc.entry parts.now.signature)) }
{
    match purpose {
        Purpose::Value => judge_valued(doc, parts),
        Purpose::SignatureStamp => judge_stamped(doc, parts),
        Purpose::ArchiveStamp => judge_archived(doc, parts),
    }
}

fn gather(
    alloc: Global,
    doc: Doc<'_>,
    parts: &SignatureParts,
    refs: &Refs,
    externals: &Externals,
    purpose: Purpose,
) -> Result<Octs, OutOfMemory>
    requires parts { AreParts doc parts.now }
    requires refs { AreRefsOf doc parts.now refs.now }
    ensures { IfOk result (λ octets. octets ≡ octets_over purpose (handed_in externals.now) (document_in doc.entry) (spot_of doc.entry parts.now.signature)) }
{
    match purpose {
        Purpose::Value => signed_octets(alloc, doc, parts),
        Purpose::SignatureStamp => next_octets(
            alloc,
            doc,
            parts,
            refs,
            externals,
            StampKind::Signature,
        ),
        Purpose::ArchiveStamp => next_octets(
            alloc,
            doc,
            parts,
            refs,
            externals,
            StampKind::Archive,
        ),
    }
}

/// The octets over which the next value of a signature, or its next time-stamp, is to be made: its `SignedInfo` in the form of its
/// `CanonicalizationMethod` (XML Signature 1.1, section 3.1.2); its `SignatureValue`, or all that it is so far, in the exclusive form without
/// comments (EN 319 132-1, clauses 5.3 and 5.5.2).
///
/// Err: the first code: A1 to A12 as in `signature_checks::open`; for a value, that the signature has one (A13); for a time-stamp, that it
/// has none (A14), and for one on the signature, that there is one on the archive (A23), for one on the archive, that there is none on the
/// signature (A24). Or memory could not be had.
pub fn octets_for(
    alloc: Global,
    doc: Doc<'_>,
    externals: &Externals,
    purpose: Purpose,
) -> Result<Octs, Objection>
    requires document { length (bytes_in doc) ≤ 16777216 }
    requires externals { AreShort (handed_in externals.now) }
    ensures { IsAsked purpose (handed_in externals.now) (bytes_in doc.entry) (document_in doc.entry) result }
{
    let opened = match open(alloc, doc, externals) {
        Ok(opened) => opened,
        Err(objection) => return Err(objection),
    };
    if let Some(code) = judge(doc, &opened.parts, purpose) {
        return Err(Objection::Found(code));
    }
    match gather(alloc, doc, &opened.parts, &opened.refs, externals, purpose) {
        Ok(octets) => Ok(octets),
        Err(OutOfMemory) => Err(Objection::OutOfMemory),
    }
}
