// Documents, read.
ghost use Rattle.std.specs.Prelude.{◌≤◌, length, IfOk, IfErr};
ghost use Rattle.doc_spans.specs.Shown.{IsShownOf};
ghost use Rattle.xades_cli.specs.Reading.{IsStopped};

use crate::stop::{Refusal, Stop};
use doc_spans::{DocFault, Tree};
use std::alloc::Global;
use xa_io::Steps;

// Marks the steps of reading a document.
struct Reading;

/// The tree of a document, or why it is refused.
pub fn read_document(alloc: Global, document: &[u8]) -> Result<Tree, Stop>
    requires { length document.now ≤ 16777216 }
    ensures tree { IfOk result (λ tree. IsShownOf tree document.now) }
    ensures stopped { IfErr result (IsStopped document.now) }
{
    let mut steps: Steps<Reading> = Steps::new();
    match Tree::read(alloc, document, &mut steps) {
        Ok(tree) => Ok(tree),
        Err(DocFault::OutOfMemory) => Err(Stop::OutOfMemory),
        Err(fault) => Err(Stop::Refusal(Refusal::Document {
            fault,
            size: document.len(),
        })),
    }
}
