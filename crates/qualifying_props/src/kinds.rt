//! Kinds of objects whose octets stand in a signature.

ghost use Rattle.std.specs.Prelude.{◌≡◌};
ghost use Rattle.qualifying_props.specs.Data.{datum_kind};
ghost use Rattle.qualifying_props.specs.Whole.{is_whole};

use tst_tokens::read_token;
use x509_certs::{read_certificate, read_crl};

// A kind of object whose octets stand in a signature.
#[derive(Clone, Copy)]
pub(crate) enum DatumKind {
    Certificate,
    RevocationList,
    Token,
}

// Whether octets are one whole object of a kind.
pub(crate) fn is_whole(kind: DatumKind, octets: &[u8]) -> bool
    ensures { result ≡ is_whole (datum_kind kind) octets.now }
{
    match kind {
        DatumKind::Certificate => read_certificate(octets).is_ok(),
        DatumKind::RevocationList => read_crl(octets).is_ok(),
        DatumKind::Token => read_token(octets).is_ok(),
    }
}
