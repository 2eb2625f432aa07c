//! The tests that don't depend on times.

ghost use Rattle.std.specs.Prelude.{length};
ghost use Rattle.cert_paths.specs.Reached.{IsSignedNext, IsSpoken};

use crate::facts::{is_list_of, is_signed};
use crate::rows::{CertRow, IssuerRow, ListRow};
use crate::table::{Relation, is_set, look};

/// A certificate is signed by an issuer that is reached and may do so.
///
/// Of the issuers that were known before, an earlier table tells it, and no signature is verified again.
#[derive(Clone, Copy)]
pub(crate) struct Signing<'a, 'b> {
    pub(crate) certs: &'b [CertRow<'a>],
    pub(crate) issuers: &'b [IssuerRow<'a>],
    pub(crate) before: &'b [Vec<bool>],
    pub(crate) known: &'b [bool],
    pub(crate) reached: &'b [bool],
}

impl<'a, 'b> Relation for Signing<'a, 'b> {
    ghost holds = { λ s i j. IsSignedNext s.certs.now s.issuers.now s.before.now s.known.now s.reached.now i j };

    ghost rows = { λ s. length s.certs.now };

    ghost columns = { λ s. length s.issuers.now };

    fn rows(&self) -> usize {
        self.certs.len()
    }

    fn columns(&self) -> usize {
        self.issuers.len()
    }

    fn test(&self, row: usize, column: usize) -> bool {
        if is_set(self.known, column) {
            return look(self.before, row, column);
        }
        if !is_set(self.reached, column) {
            return false;
        }
        is_signed(
            &self.certs[row].certificate,
            &self.issuers[column].certificate,
        )
    }
}

/// A CRL speaks for an issuer that is reached.
#[derive(Clone, Copy)]
pub(crate) struct Speaking<'a, 'b> {
    pub(crate) lists: &'b [ListRow<'a>],
    pub(crate) issuers: &'b [IssuerRow<'a>],
    pub(crate) reached: &'b [bool],
}

impl<'a, 'b> Relation for Speaking<'a, 'b> {
    ghost holds = { λ s i j. IsSpoken s.lists.now s.issuers.now s.reached.now i j };

    ghost rows = { λ s. length s.lists.now };

    ghost columns = { λ s. length s.issuers.now };

    fn rows(&self) -> usize {
        self.lists.len()
    }

    fn columns(&self) -> usize {
        self.issuers.len()
    }

    fn test(&self, row: usize, column: usize) -> bool {
        if !is_set(self.reached, column) {
            return false;
        }
        let list = &self.lists[row];
        is_list_of(&self.issuers[column].certificate, &list.list, list.usable)
    }
}
