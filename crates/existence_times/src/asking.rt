//! Questions on the time-stamps of a case, by the links of its pool and a policy, which all questions share.

ghost use Rattle.std.specs.Prelude.{◌≡◌, ◌↔◌, ◌<◌, ◌≤◌, length, slice_get, Some, IsTrue, IfOk};
ghost use Rattle.policy_rules.specs.View.{rules};
ghost use Rattle.acceptance.specs.Objects.{token_of};
ghost use Rattle.acceptance.specs.Stamping.{IsTokenAccepted};
ghost use Rattle.acceptance.specs.Walks.{time};
ghost use Rattle.existence_times.specs.Shown.{ShownStamp, AreEarliestOf};

use crate::case::Case;
use crate::judging::is_token_accepted;
use crate::rounds::{bytes_of, settle};
use cert_paths::{Links, Times};
use policy_rules::Policy;
use std::alloc::Global;
use xa_io::OutOfMemory;

/// The earliest proved times, as `earliest` gives them. No signature is verified here.
pub fn earliest_by(
    alloc: Global,
    links: &Links<'_>,
    case: &Case,
    policy: &Policy,
    now: i64,
) -> Result<Times, OutOfMemory>
    requires links { links.now ≡ record { pool = case.now.pool; policy = rules policy.now } }
    ensures { IfOk result (λ times. AreEarliestOf (rules policy.now) case.now now times) }
{
    let mut times = Times::flat(alloc, case.pool.objects(), now)?;
    settle(
        alloc,
        links,
        policy,
        case.tokens.as_slice(),
        case.stamps.as_slice(),
        now,
        &mut times,
    )?;
    Ok(times)
}

/// Whether the token of a time-stamp, by its number from 0, is accepted at its own time in a list of times, which has one for each object (RFC
/// 3161; RFC 5280, section 6, in this profile).
pub fn is_stamp_accepted(
    alloc: Global,
    links: &Links<'_>,
    case: &Case,
    policy: &Policy,
    times: &Times,
    number: usize,
) -> Result<bool, OutOfMemory>
    requires links { links.now ≡ record { pool = case.now.pool; policy = rules policy.now } }
    requires number { number < length case.now.stamps }
    requires times { length case.now.pool ≤ length times.now }
    ensures { IfOk result (λ answer. (stamp : ShownStamp) → slice_get case.now.stamps number ≡ Some stamp →
        (IsTrue answer ↔ IsTokenAccepted case.now.pool (rules policy.now) times.now (token_of stamp.token) (time times.now stamp.object))) }
{
    let stamp = &case.stamps[number];
    let token = bytes_of(case.tokens.as_slice(), stamp.token);
    let at = times.time(stamp.object);
    let answer = is_token_accepted(alloc, links, policy, times, token, at)?;
    Ok(answer)
}
