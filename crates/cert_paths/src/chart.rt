//! The certificates and anchors as the numbers among which a walk is searched.

ghost use Rattle.std.specs.Prelude.{◌≡◌};
ghost use Rattle.cert_paths.specs.Chart.{issuing_of};

use crate::facts::is_within;
use crate::rows::{CertRow, IssuerRow};
use crate::search::Graph;
use crate::table::look;

/// Which certificates may be linked to which issuers, path lengths aside.
#[derive(Clone, Copy)]
pub(crate) struct Chart<'a, 'b> {
    pub(crate) certs: &'b [CertRow<'a>],
    pub(crate) issuers: &'b [IssuerRow<'a>],
    pub(crate) bits: &'b [Vec<bool>],
}

impl<'a, 'b> Graph for Chart<'a, 'b> {
    ghost issuing = { issuing_of };

    fn size(&self) -> usize {
        self.certs.len()
    }

    fn reach(&self) -> usize {
        self.issuers.len()
    }

    fn is_linked(&self, counted: usize, certificate: usize, issuer: usize) -> bool {
        look(self.bits, certificate, issuer) && is_within(counted, self.issuers[issuer].path_len)
    }

    fn counts(&self, certificate: usize) -> bool {
        !self.certs[certificate].self_issued
    }
}
