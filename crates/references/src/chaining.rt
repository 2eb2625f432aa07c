//! The chains of all References.

ghost use Rattle.std.specs.Prelude.{◌≡◌, ◌<◌, ◌^◌, length, None, IfErr, IfOk, OnOk};
ghost use Rattle.std.specs.List.{All};
ghost use Rattle.doc_spans.specs.Seen.{document_in};
ghost use Rattle.signature_model.specs.Chains.{first_of, no_chain};
ghost use Rattle.references.specs.Answers.{IsFault};
ghost use Rattle.references.specs.Found.{sought_spots, AreReferences, IsSought};

use crate::faults::RefFault;
use crate::targets::Sought;
use doc_spans::Doc;
use reference_chains::Reference;
use std::alloc::Global;

// The References with their chains, or the first whose transforms are no chain.
pub(crate) fn chain_all(
    alloc: Global,
    doc: Doc<'_>,
    all: &[Sought],
) -> Result<Vec<Reference>, RefFault>
    requires each { All (IsSought doc) all.now }
    requires few { length all.now < 2 ^ 32 }
    ensures references { IfOk result (λ references. AreReferences doc.entry (sought_spots doc.entry all.now) references.items) }
    ensures none { OnOk result (first_of (no_chain (document_in doc.entry)) 1 (sought_spots doc.entry all.now) ≡ None) }
    ensures err { IfErr result (IsFault (first_of (no_chain (document_in doc.entry)) 1 (sought_spots doc.entry all.now))) }
{
    let mut references = Vec::new(alloc);
    for (number, sought) in all.iter().enumerate() {
        let Some(reference) = Reference::of(doc, sought.node, sought.place) else {
            return Err(RefFault::Chain {
                k: number as u32 + 1,
            });
        };
        let Ok(_) = references.push(reference) else {
            return Err(RefFault::OutOfMemory);
        };
    }
    Ok(references)
}
