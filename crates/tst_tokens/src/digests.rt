//! The digests that a token names.

ghost use Rattle.std.specs.Prelude.{◌≡◌};
ghost use Rattle.tst_tokens.specs.Digests.{kind_of};

use algorithms::DigestKind;

// One of the three, as a token names it.
pub(crate) fn kind_named(oid: &[u8]) -> DigestKind
    ensures { result ≡ kind_of oid.now }
{
    if oid == DigestKind::Sha384.oid() {
        DigestKind::Sha384
    } else if oid == DigestKind::Sha512.oid() {
        DigestKind::Sha512
    } else {
        DigestKind::Sha256
    }
}
