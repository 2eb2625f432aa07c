//! Whether the time-stamps of a case are in order (RFC 3161, section 2.4.2, genTime).

ghost use Rattle.std.specs.Prelude.{◌≡◌, ◌≤ℤ◌, ◌↔◌, ℕ, length, map, replicate, slice_get, Some, IsTrue, IfOk};
ghost use Rattle.der_values.specs.Fits.{IsObject};
ghost use Rattle.tst_tokens.specs.Layouts as layout;
ghost use Rattle.acceptance.specs.Objects.{token_of};
ghost use Rattle.acceptance.specs.Verdict as verdict;
ghost use Rattle.acceptance.specs.Walks.{time};
ghost use Rattle.existence_times.specs.Kept.{row_stamp, IsStampKept};
ghost use Rattle.existence_times.specs.Orders.{limited};
ghost use Rattle.existence_times.specs.Shown.{stamps_of};
ghost use Rattle.existence_times.specs.declared.rows.StampRow.{StampRow};

use crate::case::Case;
use crate::rounds::{bytes_of, lower};
use crate::rows::{StampRow, TokenRow};
use cert_paths::{Pool, Times};
use std::alloc::Global;
use tst_tokens::whole_token;
use xa_io::OutOfMemory;

#[tactic(auto, unfolding(acceptance::specs::Objects::token_of))]
fn gen_time(bytes: &[u8]) -> i64
    requires { IsObject layout.token bytes.now }
    ensures { result ≡ (token_of bytes.now).gen_time }
{
    whole_token(bytes).gen_time()
}

// For each object the least of the moment and the times of the tokens that cover it.
fn limits(
    alloc: Global,
    pool: &Pool,
    tokens: &[TokenRow],
    stamps: &[StampRow],
    now: i64,
) -> Result<Times, OutOfMemory>
    requires kept { (k : ℕ) (row : StampRow) → slice_get stamps.now k ≡ Some row → IsStampKept pool.now tokens.now row }
    ensures { IfOk result (λ times. times ≡ limited (map (row_stamp tokens.now) stamps.now) (replicate (length pool.now) now)) }
{
    let mut times = Times::flat(alloc, pool.objects(), now)?;
    for number in 0..stamps.len() {
        let stamp = &stamps[number];
        let time = gen_time(bytes_of(tokens, stamp.token));
        lower(&mut times, stamp.covers.as_slice(), time);
    }
    Ok(times)
}

// Whether no token has a time after the limit of its object.
fn are_within(limits: &Times, pool: &Pool, tokens: &[TokenRow], stamps: &[StampRow]) -> bool
    requires kept { (k : ℕ) (row : StampRow) → slice_get stamps.now k ≡ Some row → IsStampKept pool.now tokens.now row }
    requires limits { length limits.now ≡ length pool.now }
    ensures { IsTrue result ↔ ((k : ℕ) (row : StampRow) → slice_get stamps.now k ≡ Some row → (row_stamp tokens.now row).token.gen_time ≤ℤ time limits.now row.object.number) }
{
    for number in 0..stamps.len() {
        let stamp = &stamps[number];
        if gen_time(bytes_of(tokens, stamp.token)) > limits.time(stamp.object) {
            return false;
        }
    }
    true
}

/// Whether the time-stamps of a case are in order at a moment: no token has a time after it, and none covers a token of a later time. Times are
/// in seconds since 1970.
pub fn in_order(alloc: Global, case: &Case, now: i64) -> Result<bool, OutOfMemory>
    ensures { IfOk result (λ answer. (c : verdict.Case) → c.stamps ≡ stamps_of case.now → (IsTrue answer ↔ verdict.IsInOrder c now)) }
{
    let tokens = case.tokens.as_slice();
    let stamps = case.stamps.as_slice();
    let limits = limits(alloc, &case.pool, tokens, stamps, now)?;
    Ok(are_within(&limits, &case.pool, tokens, stamps))
}
