//! The objects of a signature, in the order in which they stand in it.

ghost use Rattle.std.specs.Prelude.{◌≡◌, ◌<◌, List, [], IfOk, OnOk, Ok, Some, length, map, slice_get};
ghost use Rattle.doc_spans.specs.declared.documents.Doc.{Doc};
ghost use Rattle.doc_spans.specs.Seen.{document_in};
ghost use Rattle.qualifying_props.specs.Answers.{IsAnswer};
ghost use Rattle.qualifying_props.specs.Shown.{ShownProperty, parts_at};
ghost use Rattle.qualifying_props.specs.Wholes.{AreWhole};
ghost use Rattle.signature_elements.specs.Standing.{spot_of};
ghost use Rattle.signature_objects.specs.Held.{objects};
ghost use Rattle.signature_objects.specs.Objects.{Object, Certificate, with_objects};
ghost use Rattle.case_steps.specs.Built.{ShowsObjects};
ghost use Rattle.case_objects.specs.Walks.{front_objects, object_in, property_objects};

use crate::adding::{add_certificate, add_material, add_token};
use existence_times::Case;
use qualifying_props::SignatureParts;
use std::alloc::Global;
use xa_io::OutOfMemory;

// Adds the certificates of KeyInfo.
fn add_key_certs(case: &mut Case, parts: &SignatureParts) -> Result<(), OutOfMemory>
    requires whole { AreWhole parts.now }
    ensures objects { (objects : List Object) → ShowsObjects objects case.old
        → OnOk result (ShowsObjects (with_objects objects (map (λ octets. Certificate octets) parts.now.key_certs)) case.new) }
    ensures stamps { OnOk result (case.new.stamps ≡ case.old.stamps) }
{
    for number in 0..parts.key_certs() {
        add_certificate(case, parts.key_cert(number))?;
    }
    Ok(())
}

// Adds the certificates and revocation lists of a property.
fn add_parts(case: &mut Case, parts: &SignatureParts, property: usize) -> Result<(), OutOfMemory>
    requires in_range { property < length parts.now.properties }
    requires whole { AreWhole parts.now }
    ensures objects { (objects : List Object) → ShowsObjects objects case.old
        → OnOk result (ShowsObjects (with_objects objects (map object_in (parts_at parts.now property))) case.new) }
    ensures stamps { OnOk result (case.new.stamps ≡ case.old.stamps) }
{
    for number in 0..parts.parts_in(property) {
        add_material(case, parts.part_in(property, number))?;
    }
    Ok(())
}

/// Adds what stands in an unsigned property, by its number from 0: a time-stamp's token with its certificates, or certificates and revocation
/// lists. Err: memory could not be had, or there are 2^32 - 1 objects.
pub fn add_property(
    case: &mut Case,
    parts: &SignatureParts,
    property: usize,
) -> Result<(), OutOfMemory>
    requires in_range { property < length parts.now.properties }
    requires whole { AreWhole parts.now }
    ensures objects { (shown : ShownProperty) → slice_get parts.now.properties property ≡ Some shown → (objects : List Object) → ShowsObjects objects case.old
        → OnOk result (ShowsObjects (with_objects objects (property_objects shown)) case.new) }
    ensures stamps { OnOk result (case.new.stamps ≡ case.old.stamps) }
{
    match parts.token(property) {
        Some(token) => add_token(case, token),
        None => add_parts(case, parts, property),
    }
}

/// A case with what stands in front of all unsigned properties: the octets of the References, the value, and the certificates of `KeyInfo`.
/// Err: memory could not be had, or there are more than 1,048,576 References.
pub fn front_case(alloc: Global, parts: &SignatureParts) -> Result<Case, OutOfMemory>
    requires whole { AreWhole parts.now }
    ensures objects { IfOk result (ShowsObjects (with_objects [] (front_objects parts.now))) }
    ensures stamps { IfOk result (λ case. case.stamps ≡ []) }
{
    let references = parts.references();
    if references > 1_048_576 {
        return Err(OutOfMemory);
    }
    let mut case = Case::new(alloc, references as u32);
    add_key_certs(&mut case, parts)?;
    Ok(case)
}

/// A case with all objects of a signature, and no time-stamps yet. The parts are those of `read_signature`.
///
/// Err: memory could not be had, or there are more than 1,048,576 References, or 2^32 - 1 objects.
pub fn objects_case(alloc: Global, parts: &SignatureParts) -> Result<Case, OutOfMemory>
    requires whole { AreWhole parts.now }
    ensures objects { (doc : Doc) → IsAnswer doc (Ok parts.now) → IfOk result (ShowsObjects (objects (document_in doc) (spot_of doc parts.now.signature) [])) }
    ensures stamps { IfOk result (λ case. case.stamps ≡ []) }
{
    let mut case = front_case(alloc, parts)?;
    for property in 0..parts.properties() {
        add_property(&mut case, parts, property)?;
    }
    Ok(case)
}
