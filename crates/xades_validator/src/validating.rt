//! The validation of a document.

ghost use Rattle.std.specs.Prelude.{◌≤◌, length};
ghost use Rattle.policy_rules.specs.View.{rules};
ghost use Rattle.reference_chains.specs.HandedIn.{handed_in};
ghost use Rattle.signature_cases.specs.Handed.{IsMaterial};
ghost use Rattle.time_texts.specs.Clock.{IsOfYears};
ghost use Rattle.xades_validator.specs.Validating.{IsValidated};

use crate::asked::Asked;
use crate::faults::ValidateFault;
use crate::judging::report_on;
use crate::reports::Report;
use doc_spans::{Doc, DocFault, Tree};
use policy_rules::Policy;
use references::Externals;
use std::alloc::Global;
use xa_io::{OutOfMemory, Steps};

// Marks the steps of reading a document.
struct Reading;

/// The report on the signature of a document, at a moment in seconds since 1970, of the years 0000 to 9999, by a policy. `more` is whole
/// certificates and revocation lists in DER one after another, which are used beside those of the document.
///
/// The verdict is yes exactly where the signature is read whole, and has no fault, all digests and signatures verify, and each certificate and
/// algorithm is accepted at the earliest time that is proved of its use. Err: the document spells no tree within the limits; or memory could
/// not be had.
pub fn validate(
    alloc: Global,
    bytes: &[u8],
    policy: &Policy,
    now: i64,
    externals: &Externals,
    more: &[u8],
) -> Result<Report, ValidateFault>
    requires size { length bytes.now ≤ 16777216 }
    requires moment { IsOfYears now }
    requires more { IsMaterial more.now }
    ensures { IsValidated (rules policy.now) (handed_in externals.now) more.now now bytes.now result }
{
    let mut steps: Steps<Reading> = Steps::new();
    let tree = match Tree::read(alloc, bytes, &mut steps) {
        Ok(tree) => tree,
        Err(DocFault::OutOfMemory) => return Err(ValidateFault::OutOfMemory),
        Err(fault) => return Err(ValidateFault::BadDocument(fault)),
    };
    let asked = Asked {
        policy,
        now,
        externals,
        more,
    };
    match report_on(alloc, Doc::of(bytes, &tree), asked) {
        Ok(report) => Ok(report),
        Err(OutOfMemory) => Err(ValidateFault::OutOfMemory),
    }
}
