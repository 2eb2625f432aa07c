//! Tables of tests.

ghost use Rattle.std.specs.Prelude.{◌≡◌, ◌<◌, ◌≤◌, ◌↔◌, ℕ, length, IsTrue, IfOk, slice_index_or, false};
ghost use Rattle.cert_paths.specs.Tables.{bit, flag, IsTableOf, IsRowOf};

use std::alloc::{AllocError, Global};

/// A test of two numbers.
pub(crate) trait Relation {
    ghost holds: { Self → ℕ → ℕ → Type 0 };

    ghost rows: { Self → ℕ };

    ghost columns: { Self → ℕ };

    fn rows(&self) -> usize
        ensures { result ≡ rows self.now };

    fn columns(&self) -> usize
        ensures { result ≡ columns self.now };

    fn test(&self, row: usize, column: usize) -> bool
        requires { (row < rows self.now) × (column < columns self.now) }
        ensures { IsTrue result ↔ holds self.now row column };
}

fn row<R: Relation>(alloc: Global, relation: &R, row: usize) -> Result<Vec<bool>, AllocError>
    requires { row < R.rows relation.now }
    ensures { IfOk result (λ v. IsRowOf (R.holds relation.now row) (R.columns relation.now) v.items) }
{
    let mut bits = Vec::new(alloc);
    for column in 0..relation.columns() {
        bits.push(relation.test(row, column))?;
    }
    Ok(bits)
}

/// What a test says of each row and column.
pub(crate) fn table<R: Relation>(alloc: Global, relation: &R) -> Result<Vec<Vec<bool>>, AllocError>
    ensures { IfOk result (λ v. IsTableOf (R.holds relation.now) (R.rows relation.now) (R.columns relation.now) v.items) }
{
    let mut rows = Vec::new(alloc);
    for number in 0..relation.rows() {
        let bits = row(alloc, relation, number)?;
        rows.push(bits)?;
    }
    Ok(rows)
}

/// What a table says of a row and a column; false outside.
pub(crate) fn look(table: &[Vec<bool>], row: usize, column: usize) -> bool
    ensures { result ≡ bit table.now row column }
{
    let Some(bits) = table.get(row) else {
        return false;
    };
    match bits.get(column) {
        Some(bit) => *bit,
        None => false,
    }
}

/// What flags say of a number; false outside.
pub(crate) fn is_set(flags: &[bool], number: usize) -> bool
    ensures { result ≡ flag flags.now number }
{
    match flags.get(number) {
        Some(flag) => *flag,
        None => false,
    }
}
