//! The status of a certificate by the CRLs of its issuer.

ghost use Rattle.std.specs.Prelude.{◌≡◌, ◌↔◌, ◌<◌, ◌≤ℤ◌, length, slice_get, IsTrue};
ghost use Rattle.policy_rules.specs.View.{rules};
ghost use Rattle.cert_paths.specs.Rows.{member_of, list_of, IsInTime};
ghost use Rattle.cert_paths.specs.Status.{IsUntil, IsBy, IsListCurrent, IsCurrentAt, SomeCurrent, SomeRevoked, SomeSpeaks, HaveTimes, dates_in};

use crate::facts::is_kind_accepted;
use crate::rows::{CertRow, ListRow};
use crate::table::look;
use crate::times::Times;
use policy_rules::Policy;

fn is_span(low: i64, at: i64, begin: i64, end: i64) -> bool
    ensures { IsTrue result ↔ (begin ≤ℤ low) × (at ≤ℤ end) }
{
    begin <= low && at <= end
}

/// Whether the kind of a certificate's signature is accepted at its time, and the certificate has begun at `low` and not ended at `at`.
pub(crate) fn is_in_time(
    policy: &Policy,
    row: &CertRow<'_>,
    times: &Times,
    low: i64,
    at: i64,
) -> bool
    requires { row.now.object.number < length times.now }
    ensures { IsTrue result ↔ IsInTime (rules policy.now) times.now low at (member_of row.now) }
{
    if !is_span(low, at, row.not_before, row.not_after) {
        return false;
    }
    is_kind_accepted(policy, row.kind, times.time(row.object))
}

fn is_until(at: i64, end: Option<i64>) -> bool
    ensures { IsTrue result ↔ IsUntil at end }
{
    match end {
        None => false,
        Some(end) => at <= end,
    }
}

fn is_by(at: i64, date: Option<i64>) -> bool
    ensures { IsTrue result ↔ IsBy at date }
{
    match date {
        None => false,
        Some(date) => date <= at,
    }
}

fn is_at_most(a: i64, b: i64) -> bool
    ensures { IsTrue result ↔ a ≤ℤ b }
{
    a <= b
}

// Whether a CRL tells the status of a certificate with this end.
fn is_list_current(policy: &Policy, row: &ListRow<'_>, times: &Times, at: i64, end: i64) -> bool
    requires { row.now.object.number < length times.now }
    ensures { IsTrue result ↔ IsListCurrent (rules policy.now) times.now at end row.now.object.number (list_of row.now) }
{
    if !is_until(at, row.next_update) {
        return false;
    }
    if !is_at_most(row.this_update, end) {
        return false;
    }
    is_kind_accepted(policy, row.kind, times.time(row.object))
}

// Whether the CRL of a number is one of the issuer's and tells the status of a certificate with this end.
fn tells(
    policy: &Policy,
    rows: &[ListRow<'_>],
    number: usize,
    times: &Times,
    at: i64,
    end: i64,
) -> bool
    requires { HaveTimes rows.now times.now }
    ensures { IsTrue result ↔ IsCurrentAt (rules policy.now) times.now at end (slice_get rows.now number) }
{
    match rows.get(number) {
        None => false,
        Some(row) => is_list_current(policy, row, times, at, end),
    }
}

/// Whether some CRL of an issuer tells the status of a certificate with this end.
pub(crate) fn is_current(
    policy: &Policy,
    rows: &[ListRow<'_>],
    speaks: &[Vec<bool>],
    issuer: usize,
    times: &Times,
    at: i64,
    end: i64,
) -> bool
    requires { HaveTimes rows.now times.now }
    ensures { IsTrue result ↔ SomeCurrent (rules policy.now) times.now at end rows.now speaks.now issuer }
{
    for number in 0..rows.len() {
        if look(speaks, number, issuer) && tells(policy, rows, number, times, at, end) {
            return true;
        }
    }
    false
}

/// Whether some CRL of an issuer lists a certificate, with these dates, up to a moment.
pub(crate) fn is_revoked(
    dates: &[Option<i64>],
    speaks: &[Vec<bool>],
    issuer: usize,
    at: i64,
) -> bool
    ensures { IsTrue result ↔ SomeRevoked dates.now speaks.now issuer at }
{
    for number in 0..dates.len() {
        if look(speaks, number, issuer) && is_by(at, dates[number]) {
            return true;
        }
    }
    false
}

/// Whether some CRL is an issuer's.
pub(crate) fn has_list(count: usize, speaks: &[Vec<bool>], issuer: usize) -> bool
    ensures { IsTrue result ↔ SomeSpeaks count speaks.now issuer }
{
    for number in 0..count {
        if look(speaks, number, issuer) {
            return true;
        }
    }
    false
}

/// The dates of a certificate's row.
pub(crate) fn date_row<'b>(dates: &'b [Vec<Option<i64>>], row: usize) -> &'b [Option<i64>]
    ensures { result.now ≡ dates_in (slice_get dates.now row) }
{
    match dates.get(row) {
        Some(row) => row.as_slice(),
        None => &[],
    }
}
