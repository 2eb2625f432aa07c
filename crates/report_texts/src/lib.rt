//! The text of the report on a signature, from plain facts.
//!
//! What a report says is a value, `Facts`, and `write_report` writes it line by line. The facts are found elsewhere: `FactsAreReported` in
//! `specs/` says that, for facts which are those of a signature's evidence and answers, the text is the report on them.
#![tactic(auto)]

mod facts;
mod lines;
mod reports;
mod words;

ghost use Rattle.report_texts.specs.Shown.{FactsAreReported, VerdictIsSaid, FactsMakeReports, EvidenceIsMatched, FactsAreTimed};

pub use facts::{CertificateFact, Facts, Level, ObjectFact, ReferenceFact, TokenFact, ValueFact};
pub use reports::{write_fault, write_report};
pub use signature_cases::Soundness;

/// The text of the facts of evidence and answers is the report on them.
pub fn facts_are_reported()
    ensures { FactsAreReported }
{}

/// The verdict of the facts is that of the evidence and answers.
pub fn verdict_is_said()
    ensures { VerdictIsSaid }
{}

/// The text of facts is a report on evidence, where they are those of right answers on it.
pub fn facts_make_reports()
    ensures { FactsMakeReports }
{}

/// The evidence of a document has as many computed digests as References.
pub fn evidence_is_matched()
    ensures { EvidenceIsMatched }
{}

/// The times of the facts are of the years 0000 to 9999 where they are the earliest ones of the case and the moment is of these years.
pub fn facts_are_timed()
    ensures { FactsAreTimed }
{}
