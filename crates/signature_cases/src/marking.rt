//! The objects of a signature, with how many there are before each of its properties.

ghost use Rattle.std.specs.Prelude.{◌≡◌, List, [], IfOk, Ok, length};
ghost use Rattle.doc_spans.specs.declared.documents.Doc.{Doc};
ghost use Rattle.doc_spans.specs.Seen.{document_in};
ghost use Rattle.qualifying_props.specs.Answers.{IsAnswer};
ghost use Rattle.qualifying_props.specs.Wholes.{AreWhole};
ghost use Rattle.signature_elements.specs.Standing.{spot_of};
ghost use Rattle.signature_objects.specs.Held.{objects};
ghost use Rattle.case_steps.specs.Built.{ShowsObjects};
ghost use Rattle.signature_cases.specs.Stamps.{AreMarks};

use case_objects::{add_property, front_case};
use existence_times::Case;
use qualifying_props::SignatureParts;
use std::alloc::Global;
use xa_io::OutOfMemory;

// A case, with how many objects there are before each property.
#[derive(Drop)]
pub(crate) struct Marked {
    pub(crate) case: Case,
    pub(crate) marks: Vec<u32>,
}

// A case with all objects of a signature, and no time-stamps yet.
pub(crate) fn marked_case(alloc: Global, parts: &SignatureParts) -> Result<Marked, OutOfMemory>
    requires whole { AreWhole parts.now }
    ensures shows { (doc : Doc) → IsAnswer doc (Ok parts.now) → IfOk result (λ marked.
        ShowsObjects (objects (document_in doc) (spot_of doc parts.now.signature) []) marked.case
        × AreMarks (document_in doc) (spot_of doc parts.now.signature) marked.marks.items) }
    ensures many { IfOk result (λ marked. length marked.marks.items ≡ length parts.now.properties) }
    ensures stamps { IfOk result (λ marked. marked.case.stamps ≡ []) }
{
    let mut case = front_case(alloc, parts)?;
    let mut marks = Vec::new(alloc);
    for property in 0..parts.properties() {
        let Ok(()) = marks.push(case.pool().objects()) else {
            return Err(OutOfMemory);
        };
        add_property(&mut case, parts, property)?;
    }
    Ok(Marked { case, marks })
}
