//! The answers on the tokens of time-stamps.

ghost use Rattle.std.specs.Prelude.{◌≡◌, ◌≤◌, length, map, IfOk};
ghost use Rattle.policy_rules.specs.View.{rules};
ghost use Rattle.acceptance.specs.Verdict.{Case as AcceptanceCase};
ghost use Rattle.case_steps.specs.Built.{ShowsEvidence};
ghost use Rattle.signature_cases.specs.Built.{AreWords};
ghost use Rattle.signature_evidence.specs.Answers.{AreTokenAnswers};
ghost use Rattle.signature_evidence.specs.Evidence.{Evidence};
ghost use Rattle.signature_verdicts.specs.Seen.{token_answer_in};

use crate::answers::TokenAnswer;
use cert_paths::{Links, Times};
use existence_times::{Case, is_stamp_accepted};
use policy_rules::Policy;
use signature_cases::StampWord;
use std::alloc::Global;
use xa_io::OutOfMemory;

/// For each time-stamp, whether its token is sound, and whether it is accepted at its own time.
pub(crate) fn token_answers(
    alloc: Global,
    links: &Links<'_>,
    case: &Case,
    policy: &Policy,
    times: &Times,
    words: &[StampWord<'_>],
) -> Result<Vec<TokenAnswer>, OutOfMemory>
    requires links { links.now ≡ record { pool = case.now.pool; policy = rules policy.now } }
    requires words { length words.now ≡ length case.now.stamps }
    requires times { length case.now.pool ≤ length times.now }
    ensures { (evidence : Evidence) (c : AcceptanceCase) → c.pool ≡ case.now.pool → ShowsEvidence evidence case.now → AreWords evidence.objects evidence.stamps words.now
        → IfOk result (λ answers. AreTokenAnswers (rules policy.now) evidence c times.now evidence.stamps (map token_answer_in answers.items)) }
{
    let mut answers = Vec::new(alloc);
    for number in 0..words.len() {
        let accepted = is_stamp_accepted(alloc, links, case, policy, times, number)?;
        let word = &words[number];
        let answer = TokenAnswer {
            soundness: word.soundness,
            accepted,
        };
        let Ok(_) = answers.push(answer) else {
            return Err(OutOfMemory);
        };
    }
    Ok(answers)
}
