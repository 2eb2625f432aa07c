//! What is said of time-stamps.

ghost use Rattle.std.specs.Prelude.{◌≡◌, ◌≤◌, ◌<◌, All, length, map, IfOk};
ghost use Rattle.der_values.specs.Fits.{IsObject};
ghost use Rattle.tst_tokens.specs.Layouts as layout;
ghost use Rattle.report_texts.specs.Facts.{token_shown};
ghost use Rattle.signature_reports.specs.Said.{token_said, tokens_said};

use crate::kinds::kind_of;
use cert_paths::Times;
use report_texts::TokenFact;
use signature_cases::StampWord;
use signature_verdicts::TokenAnswer;
use std::alloc::Global;
use tst_tokens::whole_token;
use xa_io::OutOfMemory;

// Of one time-stamp.
fn token_fact(times: &Times, word: &StampWord<'_>, answer: TokenAnswer) -> TokenFact
    requires whole { IsObject layout.token word.now.token.now }
    requires time { word.now.object.number < length times.now }
    ensures { token_shown result ≡ token_said times.now word.now answer }
{
    TokenFact {
        kind: kind_of(word.kind),
        gen_time: whole_token(word.token).gen_time(),
        soundness: answer.soundness,
        accepted: answer.accepted,
        time: times.time(word.object),
    }
}

/// Of each time-stamp, with the answers on it.
pub(crate) fn token_facts(
    alloc: Global,
    times: &Times,
    words: &[StampWord<'_>],
    answers: &[TokenAnswer],
) -> Result<Vec<TokenFact>, OutOfMemory>
    requires words { All (λ word. IsObject layout.token word.token.now × (word.object.number < length times.now)) words.now }
    requires answers { length answers.now ≡ length words.now }
    ensures { IfOk result (λ facts. map token_shown facts.items ≡ tokens_said times.now words.now answers.now) }
{
    let mut facts = Vec::new(alloc);
    for number in 0..words.len() {
        let fact = token_fact(times, &words[number], answers[number]);
        let Ok(_) = facts.push(fact) else {
            return Err(OutOfMemory);
        };
    }
    Ok(facts)
}
