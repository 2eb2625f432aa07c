//! The certificates of a token, one after another.

ghost use Rattle.std.specs.Prelude.{◌≡◌, map, filter};
ghost use Rattle.std.specs.Iterator.{YieldsFirstBy, item_count};
ghost use Rattle.der_values.specs.Elements.{elements};
ghost use Rattle.tst_tokens.specs.Tokens.{is_certificate};
ghost use Rattle.tst_tokens.specs.View.{certificates_left};
ghost use Rattle.x509_certs.specs.View.{certificate_bytes};

use der_values::{Elements, elements_of};
use x509_certs::{Certificate, read_certificate};

/// The certificates of a token that are left. Each element among them is judged once.
#[derive(Clone, Drop)]
pub struct Certificates<'a> {
    listed: Elements<'a>,
}

// The certificates among these elements.
pub(crate) fn certificates_in<'a>(listed: &'a [u8]) -> Certificates<'a>
    ensures { certificates_left result ≡ map (λ e. e.whole) (filter is_certificate (elements listed.now)) }
{
    Certificates {
        listed: elements_of(listed),
    }
}

impl<'a> Iterator for Certificates<'a> {
    type Item = Certificate<'a>;

    ghost next_gives = { YieldsFirstBy certificate_bytes certificates_left };

    ghost remaining = { item_count certificates_left };

    fn next(&mut self) -> Option<Certificate<'a>> {
        while let Some(entry) = self.listed.next() {
            if let Ok(certificate) = read_certificate(entry.whole) {
                return Some(certificate);
            }
        }
        None
    }
}
