//! Whether the algorithms of digests are accepted, each at the time of what it is of.

ghost use Rattle.std.specs.Prelude.{◌≤◌, ◌<◌, ◌↔◌, length, IfOk, IfSome, IsTrue};
ghost use Rattle.policy_rules.specs.Rules.{AcceptsDigest};
ghost use Rattle.policy_rules.specs.View.{rules};
ghost use Rattle.acceptance.specs.Walks.{time};
ghost use Rattle.signature_cases.specs.Built.{uses_from};
ghost use Rattle.signature_evidence.specs.Answers.{AreAccepted};
ghost use Rattle.signature_verdicts.specs.Seen.{IsSignerDigestAccepted};

use algorithms::DigestKind;
use cert_paths::{Pool, Times};
use policy_rules::Policy;
use signature_cases::{ReferenceDigest, SigningCert};
use std::alloc::Global;
use xa_io::OutOfMemory;

// Whether an algorithm is accepted at the time of the object with a number.
fn is_accepted_at(
    policy: &Policy,
    pool: &Pool,
    times: &Times,
    kind: DigestKind,
    number: usize,
) -> bool
    requires number { number < length pool.now }
    requires times { length pool.now ≤ length times.now }
    ensures { IsTrue result ↔ AcceptsDigest (rules policy.now) kind (time times.now number) }
{
    let _objects = pool.objects();
    let object = pool.object(number as u32);
    policy.digest_accepted(kind, times.time(object))
}

/// Whether the algorithm of each Reference's digest is accepted at the time of its octets, which are the first objects.
pub(crate) fn reference_answers(
    alloc: Global,
    policy: &Policy,
    pool: &Pool,
    times: &Times,
    rows: &[ReferenceDigest],
) -> Result<Vec<bool>, OutOfMemory>
    requires rows { length rows.now ≤ length pool.now }
    requires times { length pool.now ≤ length times.now }
    ensures { IfOk result (λ answers. AreAccepted (rules policy.now) times.now (uses_from 0 rows.now) answers.items) }
{
    let mut answers = Vec::new(alloc);
    for number in 0..rows.len() {
        let row = &rows[number];
        let answer = is_accepted_at(policy, pool, times, row.kind, number);
        let Ok(_) = answers.push(answer) else {
            return Err(OutOfMemory);
        };
    }
    Ok(answers)
}

/// Whether the algorithm of the signing certificate's digest is accepted at the time of the certificate; not where there is none.
pub(crate) fn certificate_answer(
    policy: &Policy,
    times: &Times,
    kind: DigestKind,
    signer: Option<SigningCert<'_>>,
) -> bool
    requires { IfSome signer (λ signer. signer.object.number < length times.now) }
    ensures { IsTrue result ↔ IsSignerDigestAccepted (rules policy.now) kind times.now signer.entry }
{
    match signer {
        None => false,
        Some(signer) => policy.digest_accepted(kind, times.time(signer.object)),
    }
}
