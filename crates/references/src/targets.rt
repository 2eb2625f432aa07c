//! What the URIs of all References name.

ghost use Rattle.std.specs.Prelude.{◌≡◌, ◌∷◌, List, ℕ, None, IfErr, IfOk, OnOk, Option};
ghost use Rattle.std.specs.List.{position_from};
ghost use Rattle.doc_spans.specs.Seen.{document_in};
ghost use Rattle.signature_model.specs.Chains.{Fault, first_code, first_of, target_missing, target_twice};
ghost use Rattle.signature_model.specs.Spots.{Spot};
ghost use Rattle.qualifying_props.specs.PartsOf.{AreParts};
ghost use Rattle.references.specs.Answers.{IsFault};
ghost use Rattle.references.specs.Found.{AreSought, names_several, names_none};
ghost use Rattle.references.specs.RefsOf.{references_in};

use crate::faults::RefFault;
use doc_spans::{Doc, NodeId};
use node_index::Identifiers;
use node_sets::IdAnswer;
use qualifying_props::SignatureParts;
use reference_chains::{Place, place_of};
use std::alloc::Global;
use xa_io::OutOfMemory;

// A Reference with what its URI names.
#[derive(Clone, Copy)]
pub(crate) struct Sought {
    pub(crate) node: NodeId,
    pub(crate) place: Place,
}

// The References of a signature, each identifier looked up once among those of the document. There are fewer than 2 ^ 32 of them, as
// there are of nodes.
fn seek_all(alloc: Global, doc: Doc<'_>, parts: &SignatureParts) -> Result<Vec<Sought>, OutOfMemory>
    requires { AreParts doc parts.now }
    ensures { IfOk result (λ all. AreSought doc.entry (references_in doc.entry parts.now.signature) all.items) }
{
    let Ok(count) = u32::try_from(parts.references()) else {
        return Err(OutOfMemory);
    };
    let identifiers = Identifiers::of(alloc, doc)?;
    let mut all = Vec::new(alloc);
    for number in 0..count {
        let node = parts.reference_node(number + 1);
        let place = place_of(alloc, doc, &identifiers, node)?;
        let Ok(_) = all.push(Sought { node, place }) else {
            return Err(OutOfMemory);
        };
    }
    Ok(all)
}

// The first Reference with an identifier that no element has.
fn first_missing(all: &[Sought]) -> Option<usize>
    ensures { result ≡ position_from (λ sought. names_none sought.place) 0 all.now }
{
    all.iter().position(|sought| matches!(sought.place, Place::Named(IdAnswer::Absent)))
}

// The first Reference with an identifier that several elements have.
fn first_double(all: &[Sought]) -> Option<usize>
    ensures { result ≡ position_from (λ sought. names_several sought.place) 0 all.now }
{
    all.iter().position(|sought| matches!(sought.place, Place::Named(IdAnswer::Many)))
}

// The References of a signature with what they name, which is one element where it is named by an identifier.
pub(crate) fn seek_targets(
    alloc: Global,
    doc: Doc<'_>,
    parts: &SignatureParts,
) -> Result<Vec<Sought>, RefFault>
    requires { AreParts doc parts.now }
    ensures sought { IfOk result (λ all. AreSought doc.entry (references_in doc.entry parts.now.signature) all.items) }
    ensures missing { OnOk result (first_of (target_missing (document_in doc.entry)) 1 (references_in doc.entry parts.now.signature) ≡ None) }
    ensures twice { OnOk result (first_of (target_twice (document_in doc.entry)) 1 (references_in doc.entry parts.now.signature) ≡ None) }
    ensures err { IfErr result (λ fault. (tests : List (ℕ → Spot → Option Fault)) → IsFault (first_code (target_missing (document_in doc.entry) ∷ target_twice (document_in doc.entry) ∷ tests) (references_in doc.entry parts.now.signature)) fault) }
{
    let all = seek_all(alloc, doc, parts)?;
    if let Some(number) = first_missing(&all) {
        return Err(RefFault::TargetMissing {
            k: number as u32 + 1,
        });
    }
    if let Some(number) = first_double(&all) {
        return Err(RefFault::TargetTwice {
            k: number as u32 + 1,
        });
    }
    Ok(all)
}
