//! The signature of a document with its parts and its References, or the first thing that stands against it.

ghost use Rattle.std.specs.Prelude.{◌≡◌, ◌≤◌, ◌∷◌, Option, length, option_map};
ghost use Rattle.document_model.specs.Tree.{Nodes};
ghost use Rattle.doc_spans.specs.Seen.{bytes_in, document_in};
ghost use Rattle.qualifying_props.specs.Answers.{IsFault};
ghost use Rattle.qualifying_props.specs.PartsOf.{AreParts};
ghost use Rattle.reference_chains.specs.HandedIn.{handed_in};
ghost use Rattle.references.specs.Answers.{IsFault as IsRefFault};
ghost use Rattle.references.specs.RefsOf.{AreRefsOf};
ghost use Rattle.signature_elements.specs.Standing.{spot_of};
ghost use Rattle.signature_model.specs.Chains.{Fault};
ghost use Rattle.signature_model.specs.Parts.{is_signed};
ghost use Rattle.signature_model.specs.Readable.{Answer};
ghost use Rattle.signature_model.specs.Spots.{Spot};
ghost use Rattle.signature_checks.specs.Codes.{first_code};
ghost use Rattle.signature_checks.specs.Opening.{AreOpenRefs, AreShort, IsFound, IsOpening, IsToldWhole, code_by, place_test, reference_code};

use crate::codes::Code;
use crate::objections::Objection;
use doc_spans::Doc;
use qualifying_props::{PartFault, SignatureParts, read_signature};
use references::{Externals, RefFault, Refs, read_refs, self_cover};
use signature_elements::is_blank;
use std::alloc::Global;

/// The signature of a document: its parts and its References.
#[derive(Drop)]
pub struct Opened {
    pub parts: SignatureParts,
    pub refs: Refs,
}

// Why a signature has no parts.
fn objection_by_parts(fault: PartFault) -> Objection
    ensures { (doc : Doc) (found : Answer) → IsFault doc found fault → IsFound (λ tests. code_by tests (bytes_in doc) found) result }
{
    match fault {
        PartFault::NoSignature => Objection::Found(Code::NoSignature),
        PartFault::Several => Objection::Found(Code::Several),
        PartFault::Shape { at, what } => Objection::Found(Code::Shape { at, what }),
        PartFault::Include { at } => Objection::Found(Code::Include { at }),
        PartFault::PropertyData { at } => Objection::Found(Code::PropertyData { at }),
        PartFault::OutOfMemory => Objection::OutOfMemory,
    }
}

// Why the References of a signature aren't read. A place in base64 that 32 bits hold is told as it is.
fn objection_by_reference(fault: RefFault) -> Objection
    ensures { (found : Option Fault) → IsRefFault found fault → IsToldWhole found → (document : Nodes) (signature : Spot) → IsFound (λ tests. first_code (option_map reference_code found ∷ place_test document signature ∷ tests signature)) result }
{
    match fault {
        RefFault::TargetMissing { k } => Objection::Found(Code::TargetMissing { k }),
        RefFault::TargetTwice { k } => Objection::Found(Code::TargetTwice { k }),
        RefFault::Chain { k } => Objection::Found(Code::Chain { k }),
        RefFault::DigestName { k } => Objection::Found(Code::DigestName { k }),
        RefFault::External { k } => Objection::Found(Code::External { k }),
        RefFault::Base64 { k, at } => Objection::Found(Code::Base64 { k, at }),
        RefFault::OutOfMemory => Objection::OutOfMemory,
    }
}

// The References of a signature, which cover no place at which something is to be put in.
fn open_refs(
    alloc: Global,
    doc: Doc<'_>,
    parts: &SignatureParts,
    externals: &Externals,
) -> Result<Refs, Objection>
    requires parts { AreParts doc parts.now }
    requires document { length (bytes_in doc) ≤ 16777216 }
    requires externals { AreShort (handed_in externals.now) }
    ensures { AreOpenRefs (handed_in externals.now) doc.entry parts.now result }
{
    match read_refs(alloc, doc, parts, externals) {
        Ok(refs) => match self_cover(doc, parts, &refs) {
            Some(k) => Err(Objection::Found(Code::SelfCover { k })),
            None => Ok(refs),
        },
        Err(fault) => Err(objection_by_reference(fault)),
    }
}

/// The signature of a document with its parts and its References, which have no fault and cover no place at which something is to be put
/// in (XML Signature 1.1, section 4; EN 319 132-1, clause 4).
///
/// Err: the first code: the document has no signature (A1) or several (A2); its shape is broken (A3); a time-stamp has an `Include` (A4);
/// octets aren't whole objects (A5); a Reference has a fault (A6 to A11), or covers such a place (A12). Or memory could not be had.
pub fn open(alloc: Global, doc: Doc<'_>, externals: &Externals) -> Result<Opened, Objection>
    requires document { length (bytes_in doc) ≤ 16777216 }
    requires externals { AreShort (handed_in externals.now) }
    ensures { IsOpening (handed_in externals.now) doc.entry result }
{
    match read_signature(alloc, doc) {
        Ok(parts) => match open_refs(alloc, doc, &parts, externals) {
            Ok(refs) => Ok(Opened { parts, refs }),
            Err(objection) => Err(objection),
        },
        Err(fault) => Err(objection_by_parts(fault)),
    }
}

/// Whether a signature has a value.
pub fn is_signed(doc: Doc<'_>, parts: &SignatureParts) -> bool
    requires { AreParts doc parts.now }
    ensures { result ≡ is_signed (document_in doc.entry) (spot_of doc.entry parts.now.signature) }
{
    !is_blank(doc, parts.value_node())
}
