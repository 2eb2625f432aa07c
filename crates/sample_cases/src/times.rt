//! The earliest times as a list.

ghost use Rattle.std.specs.Prelude.{◌≡◌, length, IfOk};
ghost use Rattle.policy_rules.specs.View.{rules};
ghost use Rattle.existence_times.specs.Shown.{AreEarliestOf};

use crate::fault::CaseFault;
use cert_paths::{Pool, Times};
use existence_times::{Case, earliest};
use policy_rules::Policy;
use std::alloc::Global;

fn listed(alloc: Global, times: &Times, pool: &Pool) -> Result<Vec<i64>, CaseFault>
    requires { length times.now ≡ length pool.now }
    ensures { IfOk result (λ list. list.items ≡ times.now) }
{
    let mut list = Vec::new(alloc);
    for number in 0..pool.objects() {
        list.push(times.time(pool.object(number)))?;
    }
    Ok(list)
}

/// The earliest proved time of each object of a case at a moment, by the numbers of the objects.
pub fn earliest_times(
    alloc: Global,
    case: &Case,
    policy: &Policy,
    now: i64,
) -> Result<Vec<i64>, CaseFault>
    ensures { IfOk result (λ list. AreEarliestOf (rules policy.now) case.now now list.items) }
{
    let times = earliest(alloc, case, policy, now)?;
    let list = listed(alloc, &times, case.pool())?;
    Ok(list)
}
