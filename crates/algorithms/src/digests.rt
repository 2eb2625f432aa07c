//! Digests, and the hashers that make them.

ghost use Rattle.std.specs.Prelude.{◌≡◌, ℕ, List, [], ◌<◌, length, slice_index};
ghost use Rattle.algorithms.specs.Digests.{digest_of, kind_of, size_of, number_of, HoldsMessage};

use crate::digest_kinds::DigestKind;
use sha2::{Digest as _, Sha256, Sha384, Sha512};
use std::marker::Model;
use xa_io::Octets;

#[derive(Clone, Copy, Debug, PartialEq, Eq)]
enum Held {
    Short([u8; 32]),
    Middle([u8; 48]),
    Long([u8; 64]),
}

/// A digest: a list of 32, 48 or 64 bytes.
#[derive(Clone, Copy, Debug)]
pub struct Digest {
    held: Held,
}

impl Model for Digest {
    ghost use Rattle.std.specs.Prelude.{List, ℕ};

    ghost Value = { List ℕ };

    ghost use Rattle.algorithms.specs.Held.{held_bytes, held_of, IsSized, inverse_ok};

    ghost view = { λ d. held_bytes d.held };

    ghost invariant = { λ d. IsSized d.held };

    ghost inverse = { λ b. record { held = held_of b } };

    ghost inverse_ok = { inverse_ok };
}

// The same bytes, each of which is below 256.
fn same_bytes(bytes: &[u8]) -> &[u8]
    ensures value { result.now ≡ bytes.now }
    ensures bytes { (i : ℕ) → slice_index bytes.now i < 256 }
{
    bytes
}

impl Digest {
    ghost use Rattle.algorithms.specs.Held.{IsDigestSize};

    /// The bytes.
    pub fn as_slice(&self) -> &[u8]
        ensures value { result.now ≡ self.now }
        ensures size { IsDigestSize (length self.now) }
        ensures bytes { (i : ℕ) → slice_index self.now i < 256 }
    {
        match &self.held {
            Held::Short(bytes) => same_bytes(bytes),
            Held::Middle(bytes) => same_bytes(bytes),
            Held::Long(bytes) => same_bytes(bytes),
        }
    }
}

/// A hash function at work on a message that is put into it piece by piece.
#[derive(Drop)]
pub enum Hasher {
    Of256(Sha256),
    Of384(Sha384),
    Of512(Sha512),
}

impl Octets for Hasher {
    ghost holds = { HoldsMessage };

    ghost mark = { λ h. number_of (kind_of h) };

    fn put(&mut self, piece: &[u8]) {
        match self {
            Hasher::Of256(hasher) => hasher.update(piece),
            Hasher::Of384(hasher) => hasher.update(piece),
            Hasher::Of512(hasher) => hasher.update(piece),
        }
    }
}

impl Hasher {
    /// A hasher of the empty message.
    pub fn new(kind: DigestKind) -> Hasher
        ensures kind { kind_of result ≡ kind }
        ensures empty { HoldsMessage result [] }
    {
        match kind {
            DigestKind::Sha256 => Hasher::Of256(Sha256::new()),
            DigestKind::Sha384 => Hasher::Of384(Sha384::new()),
            DigestKind::Sha512 => Hasher::Of512(Sha512::new()),
        }
    }

    /// The digest, by the hasher's kind, of the message that was put.
    pub fn finish(self) -> Digest
        ensures value { (message : List ℕ) → HoldsMessage self message → result ≡ digest_of (kind_of self) message }
        ensures size { length result ≡ size_of (kind_of self) }
    {
        match self {
            Hasher::Of256(hasher) => Digest {
                held: Held::Short(hasher.finalize()),
            },
            Hasher::Of384(hasher) => Digest {
                held: Held::Middle(hasher.finalize()),
            },
            Hasher::Of512(hasher) => Digest {
                held: Held::Long(hasher.finalize()),
            },
        }
    }
}
