//! The row of a certificate by its bytes.

ghost use Rattle.std.specs.Prelude.{◌≡◌, ◌<◌, ◌↔◌, ℕ, length, slice_get, IsTrue, MatchOption};
ghost use Rattle.x509_certs.specs.View.{certificate_bytes};
ghost use Rattle.cert_paths.specs.Rows.{HasBytes};

use crate::rows::CertRow;

fn has(row: &CertRow<'_>, leaf: &[u8]) -> bool
    ensures { IsTrue result ↔ (certificate_bytes row.now.certificate ≡ leaf.now) }
{
    row.certificate.whole() == leaf
}

fn has_bytes(rows: &[CertRow<'_>], number: usize, leaf: &[u8]) -> bool
    ensures { IsTrue result ↔ HasBytes leaf.now (slice_get rows.now number) }
{
    match rows.get(number) {
        None => false,
        Some(row) => has(row, leaf),
    }
}

/// The first row whose certificate has these bytes.
pub(crate) fn row_of(rows: &[CertRow<'_>], leaf: &[u8]) -> Option<usize>
    ensures { MatchOption result
        ((k : ℕ) → k < length rows.now → ¬ (HasBytes leaf.now (slice_get rows.now k)))
        (λ k. (k < length rows.now) × HasBytes leaf.now (slice_get rows.now k)) }
{
    for number in 0..rows.len() {
        if has_bytes(rows, number, leaf) {
            return Some(number);
        }
    }
    None
}
