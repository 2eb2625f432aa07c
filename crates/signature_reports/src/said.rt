//! What is said of References, of the signing certificate, of the value, and of certificates and revocation lists.

ghost use Rattle.std.specs.Prelude.{◌≡◌, ◌≤◌, ◌<◌, ℕ, length, map, slice_get, Some, IfOk, IfSome};
ghost use Rattle.cert_paths.specs.Pool.{part_numbers};
ghost use Rattle.signature_cases.specs.Built.{uses_from};
ghost use Rattle.report_texts.specs.Shown.{references_of};
ghost use Rattle.signature_reports.specs.Said.{reference_said, certificate_said, value_said, object_said};

use algorithms::DigestKind;
use cert_paths::{Pool, Times};
use report_texts::{CertificateFact, ObjectFact, ReferenceFact, ValueFact};
use signature_cases::{ReferenceDigest, SignatureCase, SigningCert};
use signature_checks::digest_of;
use signature_verdicts::Answers;
use std::alloc::Global;
use xa_io::OutOfMemory;

// Of the Reference with a number from 0.
fn reference_fact(
    pool: &Pool,
    times: &Times,
    number: usize,
    row: &ReferenceDigest,
    accepted: bool,
) -> ReferenceFact
    requires number { number < length pool.now }
    requires times { length times.now ≡ length pool.now }
    ensures { result ≡ reference_said times.now number row.now accepted }
{
    let _objects = pool.objects();
    let object = pool.object(number as u32);
    ReferenceFact {
        kind: row.kind,
        computed: row.computed,
        matches: row.matches,
        accepted,
        time: times.time(object),
    }
}

/// Of each Reference, with the answer on its digest. The References are the first objects.
pub(crate) fn reference_facts(
    alloc: Global,
    pool: &Pool,
    times: &Times,
    rows: &[ReferenceDigest],
    answers: &[bool],
) -> Result<Vec<ReferenceFact>, OutOfMemory>
    requires rows { length rows.now ≤ length pool.now }
    requires times { length times.now ≡ length pool.now }
    requires answers { length answers.now ≡ length rows.now }
    ensures { IfOk result (λ facts. facts.items ≡ references_of times.now (uses_from 0 rows.now) (map (λ row. row.computed) rows.now) answers.now) }
{
    let mut facts = Vec::new(alloc);
    for number in 0..rows.len() {
        let fact = reference_fact(pool, times, number, &rows[number], answers[number]);
        let Ok(_) = facts.push(fact) else {
            return Err(OutOfMemory);
        };
    }
    Ok(facts)
}

/// Of the signing certificate, with the answer on its digest.
pub(crate) fn certificate_fact(
    times: &Times,
    kind: DigestKind,
    signer: Option<SigningCert<'_>>,
    accepted: bool,
) -> Option<CertificateFact>
    requires { IfSome signer (λ signer. signer.object.number < length times.now) }
    ensures { result ≡ certificate_said times.now kind accepted signer.entry }
{
    match signer {
        None => None,
        Some(signer) => Some(CertificateFact {
            kind,
            digest: digest_of(kind, signer.octets),
            accepted,
            time: times.time(signer.object),
        }),
    }
}

/// Of the signature value.
pub(crate) fn value_fact(shown: &SignatureCase<'_>, answers: &Answers) -> ValueFact
    requires { length answers.now.times ≡ length shown.now.case.pool }
    ensures { result ≡ value_said shown.now answers.now }
{
    ValueFact {
        kind: shown.kind,
        good: answers.good,
        keyed: answers.keyed,
        accepted: answers.kind,
        time: answers.times.time(shown.case.value()),
    }
}

// Of the certificate or revocation list with a number below `parts`.
fn object_fact(pool: &Pool, times: &Times, number: usize) -> ObjectFact
    requires number { number < length (part_numbers pool.now) }
    requires times { length times.now ≡ length pool.now }
    ensures { (n : ℕ) → slice_get (part_numbers pool.now) number ≡ Some n → result ≡ object_said pool.now times.now n }
{
    ObjectFact {
        is_certificate: !pool.is_list(number),
        time: times.time(pool.part(number)),
    }
}

/// Of each certificate and revocation list, in the order in which they were first seen.
pub(crate) fn object_facts(
    alloc: Global,
    pool: &Pool,
    times: &Times,
) -> Result<Vec<ObjectFact>, OutOfMemory>
    requires { length times.now ≡ length pool.now }
    ensures { IfOk result (λ facts. facts.items ≡ map (object_said pool.now times.now) (part_numbers pool.now)) }
{
    let mut facts = Vec::new(alloc);
    for number in 0..pool.parts() {
        let Ok(_) = facts.push(object_fact(pool, times, number)) else {
            return Err(OutOfMemory);
        };
    }
    Ok(facts)
}
