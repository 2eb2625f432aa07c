//! The report.

ghost use Rattle.std.specs.Prelude.{◌≡◌, ◌↔◌, ℤ, List, IfOk, IsTrue};
ghost use Rattle.doc_spans.specs.declared.documents.Doc.{Doc};
ghost use Rattle.doc_spans.specs.Seen.{document_in};
ghost use Rattle.policy_rules.specs.Rules.{Rules};
ghost use Rattle.policy_rules.specs.View.{rules};
ghost use Rattle.signature_cases.specs.Built.{IsBuilt};
ghost use Rattle.signature_elements.specs.Standing.{spot_of};
ghost use Rattle.signature_evidence.specs.Cases.{IsYesOf};
ghost use Rattle.signature_evidence.specs.Evidence.{Evidence, evidence_of};
ghost use Rattle.signature_evidence.specs.Reporting.{IsReportOf};
ghost use Rattle.signature_model.specs.Chains.{Handed};
ghost use Rattle.signature_objects.specs.Objects.{Object};
ghost use Rattle.signature_verdicts.specs.Seen.{IsBuiltOf, answers_in};
ghost use Rattle.time_texts.specs.Clock.{IsOfYears, clock};
ghost use Rattle.report_texts.specs.Facts.{shown as said};
ghost use Rattle.report_texts.specs.Shown.{facts_of};
ghost use Rattle.signature_reports.specs.Ready.{AreReady};

use crate::kinds::level;
use crate::said::{certificate_fact, object_facts, reference_facts, value_fact};
use crate::tokens::token_facts;
use policy_rules::Policy;
use qualifying_props::SignatureParts;
use report_texts::{Facts, write_report};
use signature_cases::SignatureCase;
use signature_verdicts::{Answers, answer};
use std::alloc::Global;
use xa_io::{Octs, OutOfMemory};

/// A report: its text, and whether it says yes.
#[derive(Drop)]
pub struct Reported {
    /// The text, in lines.
    pub text: Octs,
    /// Whether the verdict is yes.
    pub yes: bool,
}

// All that is said of a signature at a moment, with the answers on it.
fn facts(
    alloc: Global,
    shown: &SignatureCase<'_>,
    answers: &Answers,
    now: i64,
) -> Result<Facts, OutOfMemory>
    requires { AreReady shown.now answers.now }
    ensures { (policy : Rules) (evidence : Evidence) → IsBuilt policy evidence shown.now
        → IfOk result (λ facts. said facts ≡ facts_of policy evidence now answers.now.times (answers_in answers.now)) }
{
    let times = &answers.times;
    let pool = shown.case.pool();
    let words = shown.stamps.as_slice();
    let rows = shown.references.as_slice();
    let references = reference_facts(alloc, pool, times, rows, answers.references.as_slice())?;
    let tokens = token_facts(alloc, times, words, answers.tokens.as_slice())?;
    let objects = object_facts(alloc, pool, times)?;
    let kind = shown.certificate_kind;
    Ok(Facts {
        moment: now,
        level: level(words, answers.complete),
        references,
        certificate: certificate_fact(times, kind, shown.certificate, answers.certificate),
        value: value_fact(shown, answers),
        walk: answers.walk,
        tokens,
        in_order: answers.in_order,
        objects,
    })
}

/// The report on what a signature shows, at a moment and by a policy: `shown` is what is built of `parts`, by the same policy. The moment is in
/// seconds since 1970, of the years 0000 to 9999.
///
/// Err: memory could not be had.
pub fn report(
    alloc: Global,
    shown: &SignatureCase<'_>,
    parts: &SignatureParts,
    policy: &Policy,
    now: i64,
) -> Result<Reported, OutOfMemory>
    requires built { (doc : Doc) × (handed : Handed) × (more : List Object) × IsBuiltOf (rules policy.now) doc handed more parts.now shown.now }
    requires moment { IsOfYears now }
    ensures text { (doc : Doc) (handed : Handed) (more : List Object) → IsBuiltOf (rules policy.now) doc handed more parts.now shown.now
        → IfOk result (λ reported. IsReportOf clock (rules policy.now) (evidence_of handed (document_in doc) (spot_of doc parts.now.signature) more) now reported.text) }
    ensures verdict { (doc : Doc) (handed : Handed) (more : List Object) → IsBuiltOf (rules policy.now) doc handed more parts.now shown.now
        → IfOk result (λ reported. IsTrue reported.yes ↔ IsYesOf (rules policy.now) (evidence_of handed (document_in doc) (spot_of doc parts.now.signature) more) now) }
{
    let answers = answer(alloc, shown, parts, policy, now)?;
    let facts = facts(alloc, shown, &answers, now)?;
    let text = write_report(alloc, &facts)?;
    let yes = facts.is_yes();
    Ok(Reported { text, yes })
}
