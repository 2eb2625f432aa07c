//! The judgement of a signature: the first fault that stands against it, or its verdict.

ghost use Rattle.std.specs.Prelude.{◌≡◌, Some, Ok, IfOk};
ghost use Rattle.doc_spans.specs.Seen.{document_in};
ghost use Rattle.policy_rules.specs.View.{rules};
ghost use Rattle.qualifying_props.specs.Answers.{IsAnswer};
ghost use Rattle.qualifying_props.specs.Whole.{is_whole};
ghost use Rattle.reference_chains.specs.HandedIn.{handed_in};
ghost use Rattle.references.specs.Answers.{fault_in};
ghost use Rattle.references.specs.RefsOf.{AreRefsOf};
ghost use Rattle.signature_cases.specs.Handed.{IsMaterial};
ghost use Rattle.signature_elements.specs.Standing.{spot_of};
ghost use Rattle.signature_evidence.specs.Evidence.{evidence_of};
ghost use Rattle.signature_evidence.specs.Judging.{judged, unless_bad, unless_large, unless_unsigned};
ghost use Rattle.signature_evidence.specs.Material.{material_of};
ghost use Rattle.signature_model.specs.Parts.{is_signed};
ghost use Rattle.time_texts.specs.Clock.{IsOfYears};
ghost use Rattle.xades_validator.specs.Reported.{IsReported};

use crate::asked::Asked;
use crate::numbers::{number_by_parts, number_by_references};
use crate::reports::{Report, report_fault};
use doc_spans::Doc;
use qualifying_props::{SignatureParts, read_signature};
use references::{Refs, read_refs};
use signature_cases::{Counted, build};
use signature_checks::is_signed;
use signature_reports::{Reported, report};
use std::alloc::Global;
use xa_io::OutOfMemory;

// The report on a signature with a value, whose References have no fault.
fn report_on_signed(
    alloc: Global,
    doc: Doc<'_>,
    parts: &SignatureParts,
    refs: &Refs,
    asked: Asked<'_>,
) -> Result<Report, OutOfMemory>
    requires parts { IsAnswer doc (Ok parts.now) }
    requires refs { AreRefsOf doc parts.now refs.now }
    requires moment { IsOfYears asked.now }
    requires more { IsMaterial asked.more.now }
    ensures { IfOk result (IsReported (rules asked.entry.policy.now) (unless_large (evidence_of (handed_in asked.entry.externals.now) (document_in doc.entry) (spot_of doc.entry parts.now.signature) (material_of asked.entry.more.now))) asked.entry.now) }
{
    match build(
        alloc,
        doc,
        parts,
        refs,
        asked.externals,
        asked.policy,
        asked.more,
    )? {
        Counted::TooLarge => report_fault(alloc, asked.now, 28),
        Counted::Built(case) => {
            let Reported { text, yes } = report(alloc, &case, parts, asked.policy, asked.now)?;
            Ok(Report { text, yes })
        }
    }
}

// The report on a signature whose References have no fault.
fn report_on_references(
    alloc: Global,
    doc: Doc<'_>,
    parts: &SignatureParts,
    refs: &Refs,
    asked: Asked<'_>,
) -> Result<Report, OutOfMemory>
    requires parts { IsAnswer doc (Ok parts.now) }
    requires refs { AreRefsOf doc parts.now refs.now }
    requires moment { IsOfYears asked.now }
    requires more { IsMaterial asked.more.now }
    ensures { let document = document_in doc.entry in let signature = spot_of doc.entry parts.now.signature in
        IfOk result (IsReported (rules asked.entry.policy.now) (unless_unsigned (handed_in asked.entry.externals.now) document signature (material_of asked.entry.more.now) (is_signed document signature)) asked.entry.now) }
{
    if !is_signed(doc, parts) {
        return report_fault(alloc, asked.now, 14);
    }
    report_on_signed(alloc, doc, parts, refs, asked)
}

// The report on a signature that is read.
fn report_on_signature(
    alloc: Global,
    doc: Doc<'_>,
    parts: &SignatureParts,
    asked: Asked<'_>,
) -> Result<Report, OutOfMemory>
    requires parts { IsAnswer doc (Ok parts.now) }
    requires moment { IsOfYears asked.now }
    requires more { IsMaterial asked.more.now }
    ensures { let handed = handed_in asked.entry.externals.now in
        IfOk result (IsReported (rules asked.entry.policy.now) (unless_bad handed (document_in doc.entry) (spot_of doc.entry parts.now.signature) (material_of asked.entry.more.now) (fault_in handed doc.entry parts.now.signature)) asked.entry.now) }
{
    match read_refs(alloc, doc, parts, asked.externals) {
        Ok(refs) => report_on_references(alloc, doc, parts, &refs, asked),
        Err(fault) => {
            let number = number_by_references(fault)?;
            report_fault(alloc, asked.now, number)
        }
    }
}

/// The report on the signature of a document that is read.
pub(crate) fn report_on(
    alloc: Global,
    doc: Doc<'_>,
    asked: Asked<'_>,
) -> Result<Report, OutOfMemory>
    requires moment { IsOfYears asked.now }
    requires more { IsMaterial asked.more.now }
    ensures { IfOk result (IsReported (rules asked.entry.policy.now) (judged is_whole (handed_in asked.entry.externals.now) (document_in doc.entry) (material_of asked.entry.more.now)) asked.entry.now) }
{
    match read_signature(alloc, doc) {
        Ok(parts) => report_on_signature(alloc, doc, &parts, asked),
        Err(fault) => {
            let number = number_by_parts(fault)?;
            report_fault(alloc, asked.now, number)
        }
    }
}
