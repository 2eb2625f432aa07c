//! Documents, read to be kept.

ghost use Rattle.std.specs.Prelude.{◌≡◌, ◌≤◌, length, IfOk, IfErr, OnOk};
ghost use Rattle.xa_io.specs.Causes.{counted};
ghost use Rattle.augmenter.specs.Answers.{IsUnread};

use crate::refusals::Refusal;
use doc_spans::DocFault;
use insertions::LiveDoc;
use std::alloc::Global;
use xa_io::Steps;

// Reads a document, and counts one step for each of its bytes.
pub(crate) fn read<L>(alloc: Global, bytes: &[u8], steps: &mut Steps<L>) -> Result<LiveDoc, Refusal>
    requires { length bytes.now ≤ 16777216 }
    ensures bytes { IfOk result (λ live. live.bytes ≡ bytes.now) }
    ensures unread { IfErr result (IsUnread bytes.now) }
    ensures steps { OnOk result (steps.new ≡ counted steps.old (length bytes.now)) }
{
    match LiveDoc::read(alloc, bytes, steps) {
        Ok(live) => Ok(live),
        Err(DocFault::OutOfMemory) => Err(Refusal::OutOfMemory),
        Err(fault) => Err(Refusal::BadDocument(fault)),
    }
}
