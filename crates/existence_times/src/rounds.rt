//! The earliest proved times, in rounds that judge the stamps from last to first.

ghost use Rattle.std.specs.Prelude.{◌≡◌, ◌<◌, ℕ, length, map, replicate, slice_get, Some, All, ◌≤ℤ◌, ◌↔◌, IsTrue, IsFalse, IfOk};
ghost use Rattle.policy_rules.specs.View.{rules};
ghost use Rattle.acceptance.proofs.Cases.{token_test};
ghost use Rattle.acceptance.specs.Stamping as stamping;
ghost use Rattle.acceptance.specs.Times.{IsEarliest};
ghost use Rattle.acceptance.specs.Rounds.{lowered, judged, round as round_of};
ghost use Rattle.acceptance.specs.Walks.{time};
ghost use Rattle.existence_times.specs.Kept.{number_of, bytes_at, row_stamp, IsStampKept};
ghost use Rattle.existence_times.specs.declared.rows.StampRow.{StampRow};

use crate::judging::{is_token_accepted, proof_time};
use crate::rows::{StampRow, TokenRow};
use cert_paths::{Links, ObjectId, Times};
use policy_rules::Policy;
use std::alloc::Global;
use xa_io::OutOfMemory;

// Whether no covered object has a time after the bound.
fn is_met(times: &Times, covers: &[ObjectId], bound: i64) -> bool
    requires { All (λ y. y < length times.now) (map number_of covers.now) }
    ensures { IsTrue result ↔ All (λ y. time times.now y ≤ℤ bound) (map number_of covers.now) }
{
    for k in 0..covers.len() {
        if times.time(covers[k]) > bound {
            return false;
        }
    }
    true
}

/// Lowers the times of the covered objects to the bound.
pub(crate) fn lower(times: &mut Times, covers: &[ObjectId], bound: i64)
    requires { All (λ y. y < length times.old) (map number_of covers.now) }
    ensures lowered { times.new ≡ lowered bound (map number_of covers.now) times.old }
    ensures len { length times.new ≡ length times.old }
{
    for k in 0..covers.len() {
        times.lower(covers[k], bound);
    }
}

/// The bytes of a token.
pub(crate) fn bytes_of(tokens: &[TokenRow], number: usize) -> &[u8]
    ensures { result.now ≡ bytes_at tokens.now number }
{
    match tokens.get(number) {
        Some(row) => row.bytes.as_slice(),
        None => &[],
    }
}

// Judges a stamp, and tells whether a time may have changed. A stamp that has done its work isn't judged again.
fn judge_stamp(
    alloc: Global,
    links: &Links<'_>,
    policy: &Policy,
    tokens: &[TokenRow],
    stamp: &StampRow,
    times: &mut Times,
) -> Result<bool, OutOfMemory>
    requires policy { links.now.policy ≡ rules policy.now }
    requires kept { IsStampKept links.now.pool tokens.now stamp.now }
    requires times { length links.now.pool ≡ length times.old }
    ensures judged { IfOk result (λ changed. times.new ≡ judged (token_test links.now.pool links.now.policy) (stamping.proof_time links.now.policy) (row_stamp tokens.now stamp.now) times.old) }
    ensures same { IfOk result (λ changed. IsFalse changed → times.new ≡ times.old) }
    ensures len { IfOk result (λ changed. length times.new ≡ length times.old) }
{
    if !stamp.sound {
        return Ok(false);
    }
    let bytes = bytes_of(tokens, stamp.token);
    let bound = proof_time(policy, bytes);
    if is_met(times, stamp.covers.as_slice(), bound) {
        return Ok(false);
    }
    let at = times.time(stamp.object);
    if is_token_accepted(alloc, links, policy, times, bytes, at)? {
        lower(times, stamp.covers.as_slice(), bound);
        Ok(true)
    } else {
        Ok(false)
    }
}

// A round: judges the stamps from last to first, and tells whether a time may have changed.
fn judge_all(
    alloc: Global,
    links: &Links<'_>,
    policy: &Policy,
    tokens: &[TokenRow],
    stamps: &[StampRow],
    times: &mut Times,
) -> Result<bool, OutOfMemory>
    requires policy { links.now.policy ≡ rules policy.now }
    requires kept { (k : ℕ) (row : StampRow) → slice_get stamps.now k ≡ Some row → IsStampKept links.now.pool tokens.now row }
    requires times { length links.now.pool ≡ length times.old }
    ensures judged { IfOk result (λ changed. times.new ≡ round_of (token_test links.now.pool links.now.policy) (stamping.proof_time links.now.policy) (map (row_stamp tokens.now) stamps.now) times.old) }
    ensures same { IfOk result (λ changed. IsFalse changed → times.new ≡ times.old) }
    ensures len { IfOk result (λ changed. length times.new ≡ length times.old) }
{
    let mut changed = false;
    let mut left = stamps.len();
    while left > 0 {
        left -= 1;
        if judge_stamp(alloc, links, policy, tokens, &stamps[left], times)? {
            changed = true;
        }
    }
    Ok(changed)
}

/// Lowers the times, each of which is the moment, to the earliest ones.
pub(crate) fn settle(
    alloc: Global,
    links: &Links<'_>,
    policy: &Policy,
    tokens: &[TokenRow],
    stamps: &[StampRow],
    now: i64,
    times: &mut Times,
) -> Result<(), OutOfMemory>
    requires policy { links.now.policy ≡ rules policy.now }
    requires kept { (k : ℕ) (row : StampRow) → slice_get stamps.now k ≡ Some row → IsStampKept links.now.pool tokens.now row }
    requires times { times.old ≡ replicate (length links.now.pool) now }
    ensures { IfOk result (λ _. IsEarliest (stamping.IsTokenAccepted links.now.pool links.now.policy) (stamping.proof_time links.now.policy) (map (row_stamp tokens.now) stamps.now) (length links.now.pool) now times.new) }
{
    for _ in 0..stamps.len() {
        if !judge_all(alloc, links, policy, tokens, stamps, times)? {
            return Ok(());
        }
    }
    Ok(())
}
