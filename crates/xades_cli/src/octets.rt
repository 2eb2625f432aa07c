// The octets over which the next value or time-stamp of a signature is to be made.
ghost use Rattle.std.specs.Prelude.{◌≤◌, length};
ghost use Rattle.reference_chains.specs.HandedIn.{handed_in};
ghost use Rattle.signature_checks.specs.Opening.{AreShort};
ghost use Rattle.xades_cli.specs.Octets.{octets_outcome};
ghost use Rattle.xades_cli.specs.Outcomes.{IsOf};

use crate::answers::Answer;
use crate::documents::read_document;
use crate::stop::{Stop, refuse};
use asked_octets::{Purpose, octets_for};
use doc_spans::Doc;
use references::Externals;
use signature_checks::Objection;
use std::alloc::Global;

/// The octets over which the next value of a document's signature, or its next time-stamp, is to be made, or why they aren't given (XML
/// Signature 1.1, section 3.1.2; EN 319 132-1, clauses 5.3 and 5.5.2).
pub fn write_octets(
    alloc: Global,
    document: &[u8],
    purpose: Purpose,
    externals: &Externals,
) -> Result<Answer, Stop>
    requires document { length document.now ≤ 16777216 }
    requires externals { AreShort (handed_in externals.now) }
    ensures { IsOf (octets_outcome purpose (handed_in externals.now) document.now) result }
{
    let tree = read_document(alloc, document)?;
    match octets_for(alloc, Doc::of(document, &tree), externals, purpose) {
        Ok(octets) => Ok(Answer::Text(octets)),
        Err(Objection::Found(code)) => Err(refuse(code)),
        Err(Objection::OutOfMemory) => Err(Stop::OutOfMemory),
    }
}
