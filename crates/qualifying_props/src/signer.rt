//! Digests of octets, and the signing certificate (EN 319 132-1, clause 5.2.2).

ghost use Rattle.std.specs.Prelude.{◌≡◌};
ghost use Rattle.std.specs.List.{position};
ghost use Rattle.qualifying_props.specs.Digests.{has_digest};

use algorithms::{DigestKind, Hasher};
use xa_io::{Octets, Octs};

/// Whether octets have a digest of a kind.
pub fn has_digest(kind: DigestKind, digest: &[u8], octets: &[u8]) -> bool
    ensures { result ≡ has_digest kind digest.now octets.now }
{
    let mut hasher = Hasher::new(kind);
    hasher.put(octets);
    hasher.finish().as_slice() == digest
}

// The number of the first certificate that has a digest.
pub(crate) fn signing_cert(kind: DigestKind, digest: &[u8], certs: &[Octs]) -> Option<usize>
    ensures { result ≡ position (has_digest kind digest.now) certs.now }
{
    for number in 0..certs.len() {
        if has_digest(kind, digest, certs[number].as_slice()) {
            return Some(number);
        }
    }
    None
}
