//! All answers on what a signature shows.

ghost use Rattle.std.specs.Prelude.{List, IfOk};
ghost use Rattle.doc_spans.specs.declared.documents.Doc.{Doc};
ghost use Rattle.doc_spans.specs.Seen.{document_in};
ghost use Rattle.policy_rules.specs.View.{rules};
ghost use Rattle.signature_cases.specs.Built.{case_of};
ghost use Rattle.signature_elements.specs.Standing.{spot_of};
ghost use Rattle.signature_evidence.specs.Answers.{AreAnswers};
ghost use Rattle.signature_evidence.specs.Evidence.{evidence_of};
ghost use Rattle.signature_model.specs.Chains.{Handed};
ghost use Rattle.signature_objects.specs.Objects.{Object};
ghost use Rattle.signature_verdicts.specs.Seen.{IsBuiltOf, answers_in};

use crate::answers::Answers;
use crate::digests::{certificate_answer, reference_answers};
use crate::tokens::token_answers;
use crate::walks::walk_answer;
use cert_paths::{Links, is_kind_accepted};
use completeness::first_incomplete_by;
use existence_times::{earliest_by, in_order};
use policy_rules::Policy;
use qualifying_props::SignatureParts;
use signature_cases::SignatureCase;
use std::alloc::Global;
use xa_io::OutOfMemory;

/// Answers all questions on what a signature shows, at a moment and by a policy: `shown` is what is built of `parts`, by the same policy. The
/// moment is in seconds since 1970.
///
/// Each signature of a certificate or CRL is verified once.
pub fn answer(
    alloc: Global,
    shown: &SignatureCase<'_>,
    parts: &SignatureParts,
    policy: &Policy,
    now: i64,
) -> Result<Answers, OutOfMemory>
    requires built { (doc : Doc) × (handed : Handed) × (more : List Object) × IsBuiltOf (rules policy.now) doc handed more parts.now shown.now }
    ensures { (doc : Doc) (handed : Handed) (more : List Object) → IsBuiltOf (rules policy.now) doc handed more parts.now shown.now
        → IfOk result (λ answers. AreAnswers (rules policy.now) (evidence_of handed (document_in doc) (spot_of doc parts.now.signature) more) (case_of shown.now) now answers.times (answers_in answers)) }
{
    let case = &shown.case;
    let links = Links::new(alloc, case.pool(), policy)?;
    let times = earliest_by(alloc, &links, case, policy, now)?;
    let value = times.time(case.value());
    let rows = shown.references.as_slice();
    let references = reference_answers(alloc, policy, case.pool(), &times, rows)?;
    let tokens = token_answers(alloc, &links, case, policy, &times, shown.stamps.as_slice())?;
    let walk = walk_answer(alloc, &links, &times, shown.certificate, value)?;
    let in_order = in_order(alloc, case, now)?;
    let complete = first_incomplete_by(alloc, &links, parts)?.is_none();
    let certificate = certificate_answer(policy, &times, shown.certificate_kind, shown.certificate);
    let kind = is_kind_accepted(policy, shown.kind, value);
    Ok(Answers {
        times,
        references,
        certificate,
        good: shown.verifies,
        keyed: shown.keyed,
        kind,
        walk,
        tokens,
        in_order,
        complete,
    })
}
