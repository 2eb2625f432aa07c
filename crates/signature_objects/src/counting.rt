//! How many certificates, revocation lists and tokens a signature has.

ghost use Rattle.std.specs.Prelude.{◌≡◌, ◌<◌, List, ℕ, [], IfOk, Ok, OnOk, Some, length, slice_get};
ghost use Rattle.doc_spans.specs.declared.documents.Doc.{Doc};
ghost use Rattle.doc_spans.specs.Seen.{document_in};
ghost use Rattle.qualifying_props.specs.Answers.{IsAnswer};
ghost use Rattle.qualifying_props.specs.Shown.{ShownProperty, parts_at};
ghost use Rattle.qualifying_props.specs.Wholes.{AreWhole};
ghost use Rattle.signature_elements.specs.Standing.{spot_of};
ghost use Rattle.signature_objects.specs.Held.{objects};
ghost use Rattle.signature_objects.specs.Met.{HasMet, all_bytes, bytes_in, with_all};
ghost use Rattle.signature_objects.specs.Objects.{limited};

use crate::meeting::{meet, meet_token};
use qualifying_props::SignatureParts;
use std::alloc::Global;
use std::collections::BTreeSet;
use xa_io::OutOfMemory;

// Meets the certificates of KeyInfo.
fn meet_key_certs<'a>(
    met: &mut BTreeSet<&'a [u8]>,
    parts: &'a SignatureParts,
) -> Result<(), OutOfMemory>
    ensures { (all : List (List ℕ)) → HasMet met.old all → OnOk result (HasMet met.new (with_all all parts.now.key_certs)) }
{
    for number in 0..parts.key_certs() {
        meet(met, parts.key_cert(number))?;
    }
    Ok(())
}

// Meets the certificates and revocation lists of a property.
fn meet_material<'a>(
    met: &mut BTreeSet<&'a [u8]>,
    parts: &'a SignatureParts,
    property: usize,
) -> Result<(), OutOfMemory>
    requires { property < length parts.now.properties }
    ensures { (all : List (List ℕ)) → HasMet met.old all → OnOk result (HasMet met.new (with_all all (parts_at parts.now property))) }
{
    for number in 0..parts.parts_in(property) {
        meet(met, parts.part_in(property, number))?;
    }
    Ok(())
}

// Meets what stands in a property.
fn meet_property<'a>(
    met: &mut BTreeSet<&'a [u8]>,
    parts: &'a SignatureParts,
    property: usize,
) -> Result<(), OutOfMemory>
    requires in_range { property < length parts.now.properties }
    requires whole { AreWhole parts.now }
    ensures { (p : ShownProperty) → slice_get parts.now.properties property ≡ Some p → (all : List (List ℕ)) → HasMet met.old all → OnOk result (HasMet met.new (with_all all (bytes_in p))) }
{
    match parts.token(property) {
        Some(token) => meet_token(met, token),
        None => meet_material(met, parts, property),
    }
}

// Meets what stands in all properties, and counts all that was met.
fn meet_all<'a>(met: &mut BTreeSet<&'a [u8]>, parts: &'a SignatureParts) -> Result<(), OutOfMemory>
    requires { AreWhole parts.now }
    ensures { HasMet met.old [] → OnOk result (HasMet met.new (with_all [] (all_bytes parts.now))) }
{
    meet_key_certs(met, parts)?;
    for property in 0..parts.properties() {
        meet_property(met, parts, property)?;
    }
    Ok(())
}

/// How many distinct certificates, revocation lists and time-stamp tokens a signature has, those inside its tokens too. They are the same
/// where their bytes are.
///
/// The parts are those that `read_signature` gives. The work is that of putting the bytes in order; nothing is copied.
pub fn count_objects(alloc: Global, parts: &SignatureParts) -> Result<usize, OutOfMemory>
    requires { AreWhole parts.now }
    ensures { (doc : Doc) → IsAnswer doc (Ok parts.now) → IfOk result (λ count. count ≡ limited (objects (document_in doc) (spot_of doc parts.now.signature) [])) }
{
    let mut met = BTreeSet::new(alloc);
    meet_all(&mut met, parts)?;
    Ok(met.len())
}
