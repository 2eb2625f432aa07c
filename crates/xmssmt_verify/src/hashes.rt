//! The hash functions of XMSS^MT with SHA-256 (RFC 8391, sections 2.4 and 5.1): F, H, H_msg and PRF
//! are SHA-256 of a number in 32 octets, the key and the message.

ghost use Rattle.std.specs.Prelude.{◌≡◌, ℕ, ◌++◌, length};
ghost use Rattle.xmss_definitions.specs.Octets.{to_byte, xor};
ghost use Rattle.xmss_definitions.specs.Address.{Tree};
ghost use Rattle.xmss_definitions.specs.Wots.{prf, keyed};
ghost use Rattle.xmss_definitions.specs.Keys.{message_digest};
ghost use Rattle.xmssmt_verify.specs.Places.{place_of};

use crate::address::{Address, Place};
use sha2::{Digest, Sha256};
use std::marker::Model;

// A number in 32 octets.
#[tactic(auto, using(xmss_definitions::proofs::Octets::long_number))]
fn to_byte(number: u64) -> [u8; 32]
    ensures { result ≡ to_byte number 32 }
{
    let mut octets = [0u8; 32];
    let low = number.to_be_bytes();
    octets[24..].copy_from_slice(&low);
    octets
}

/// Two values, octet by octet in exclusive or.
pub fn xor(a: &[u8], b: &[u8; 32]) -> [u8; 32]
    requires { length a.now ≡ 32 }
    ensures { result ≡ xor a.now b.now }
{
    let mut out = [0u8; 32];
    'octets: for i in 0..32 {
        out[i] = a[i] ^ b[i];
    }
    out
}

/// PRF in one tree of a key. Contracts see the tree.
///
/// `toByte(3, 32) || SEED` is one block of SHA-256, which is hashed once for all addresses.
#[derive(Drop)]
pub struct Prf {
    seed: [u8; 32],
    layer: u32,
    tree: u64,
    begun: Sha256,
}

impl Model for Prf {
    ghost use Rattle.std.specs.Prelude.{◌++◌};
    ghost use Rattle.sha2.specs.Hashers.{Holds256};
    ghost use Rattle.xmss_definitions.specs.Octets.{to_byte};
    ghost use Rattle.xmss_definitions.specs.Address.{Tree};

    ghost Value = { Tree };

    ghost view = { λ p. record { seed = p.seed; layer = p.layer; number = p.tree } };

    ghost invariant = { λ p. Holds256 p.begun (to_byte 3 32 ++ p.seed) };
}

impl Prf {
    /// PRF under this SEED, in tree `tree` of layer `layer`.
    pub fn new(seed: &[u8; 32], layer: u32, tree: u64) -> Prf
        ensures { result ≡ record { seed = seed.now; layer = layer; number = tree } }
    {
        let mut begun = Sha256::new();
        begun.update(to_byte(3));
        begun.update(seed);
        Prf {
            seed: *seed,
            layer,
            tree,
            begun,
        }
    }

    /// PRF under the same SEED in another tree.
    pub fn in_tree(&self, layer: u32, tree: u64) -> Prf
        ensures { result ≡ record { seed = self.now.seed; layer = layer; number = tree } }
    {
        let Ok(begun) = self.begun.clone() else {
            unreachable!()
        };
        Prf {
            seed: self.seed,
            layer,
            tree,
            begun,
        }
    }

    /// The value at a place of the tree with this keyAndMask.
    #[tactic(auto, unfolding(xmss_definitions::specs::Wots::prf, xmss_definitions::specs::Wots::keyed))]
    pub fn at(&self, place: Place, mask: u32) -> [u8; 32]
        ensures { result ≡ prf self.now (place_of place) mask }
    {
        let address = Address {
            layer: self.layer,
            tree: self.tree,
            place,
        };
        let Ok(mut hasher) = self.begun.clone() else {
            unreachable!()
        };
        hasher.update(address.octets(mask));
        hasher.finalize()
    }
}

/// F, with the number 0.
#[tactic(auto, unfolding(xmss_definitions::specs::Wots::keyed))]
pub fn f(key: &[u8; 32], message: &[u8; 32]) -> [u8; 32]
    ensures { result ≡ keyed 0 key.now message.now }
{
    let mut hasher = Sha256::new();
    hasher.update(to_byte(0));
    hasher.update(key);
    hasher.update(message);
    hasher.finalize()
}

/// H of two values, with the number 1.
#[tactic(auto, unfolding(xmss_definitions::specs::Wots::keyed))]
pub fn h(key: &[u8; 32], left: &[u8; 32], right: &[u8; 32]) -> [u8; 32]
    ensures { result ≡ keyed 1 key.now (left.now ++ right.now) }
{
    let mut hasher = Sha256::new();
    hasher.update(to_byte(1));
    hasher.update(key);
    hasher.update(left);
    hasher.update(right);
    hasher.finalize()
}

/// The digest of a message that is signed, by H_msg under `r`, the root and the leaf's number
/// (section 4.2.4, algorithm 16).
#[tactic(auto, unfolding(xmss_definitions::specs::Keys::message_digest, xmss_definitions::specs::Wots::keyed))]
pub fn message_digest(r: &[u8], root: &[u8], idx: u64, message: &[u8]) -> [u8; 32]
    ensures { result ≡ message_digest r.now root.now idx message.now }
{
    let mut hasher = Sha256::new();
    hasher.update(to_byte(2));
    hasher.update(r);
    hasher.update(root);
    hasher.update(to_byte(idx));
    hasher.update(message);
    hasher.finalize()
}
