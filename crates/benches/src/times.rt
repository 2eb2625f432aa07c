//! The earliest times of cases.

use crate::failed::Failed;
use crate::opponents::{insiders, strangers};
use crate::stamps_case::{Judged, NOW, day, sample_case};
use existence_times::Case;
use sample_cases::earliest_times;
use std::alloc::Global;

// How many objects are proved to have been there before the day of the judging, found so often.
fn count_earlier(alloc: Global, judged: &Judged, often: u32) -> Result<usize, Failed> {
    let now = day(NOW);
    let mut earlier = 0;
    for _ in 0..often {
        let times = earliest_times(alloc, &judged.case, &judged.policy, now)?;
        earlier = times.as_slice().iter().filter(|time| **time < now).count();
    }
    Ok(earlier)
}

fn count_lists(case: &Case) -> usize {
    let pool = case.pool();
    let mut lists = 0usize;
    for number in 0..pool.parts() {
        if pool.is_list(number) {
            lists = lists.saturating_add(1);
        }
    }
    lists
}

/// What a case of a kind has, and how many objects are earlier. The earliest times of the cases with stamps are found so often, and those
/// of an opponent's, which has so many certificates, once.
pub fn found(alloc: Global, kind: &str, count: u32) -> Result<String, Failed> {
    let judged = match kind {
        "strangers" => strangers(alloc, count)?,
        "insiders" => insiders(alloc, count)?,
        _ => sample_case(alloc, kind == "upwards")?,
    };
    let often = if kind.ends_with("wards") { count } else { 1 };
    let earlier = count_earlier(alloc, &judged, often)?;
    let objects = judged.case.pool().objects();
    let parts = judged.case.pool().parts();
    let lists = count_lists(&judged.case);
    Ok(format!(in alloc;
        "objects: {objects}, certificates and CRLs: {parts}, of these CRLs: {lists}, earlier: {earlier}"
    )?)
}
