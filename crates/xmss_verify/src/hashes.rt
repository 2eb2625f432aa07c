//! The hash functions of XMSS with SHA-256 (RFC 8391, sections 2.4 and 5.1): F, H, H_msg and PRF
//! are SHA-256 of a number in 32 octets, the key and the message.

ghost use Rattle.std.specs.Prelude.{◌≡◌, ℕ, ◌++◌, length};
ghost use Rattle.xmss_definitions.specs.Octets.{to_byte, xor};
ghost use Rattle.xmss_definitions.specs.Address.{only_tree};
ghost use Rattle.xmss_definitions.specs.Wots.{prf, keyed};
ghost use Rattle.xmss_definitions.specs.Keys.{message_digest};
ghost use Rattle.xmss_verify.specs.Places.{place_of};

use crate::address::{Address, Place};
use sha2::{Digest, Sha256};
use std::marker::Model;

// A number in 32 octets.
#[tactic(auto, using(xmss_definitions::proofs::Octets::small_number))]
fn to_byte(number: u32) -> [u8; 32]
    ensures { result ≡ to_byte number 32 }
{
    let mut octets = [0u8; 32];
    let low = number.to_be_bytes();
    octets[28..].copy_from_slice(&low);
    octets
}

/// Two values, octet by octet in exclusive or.
pub fn xor(a: &[u8], b: &[u8; 32]) -> [u8; 32]
    requires { length a.now ≡ 32 }
    ensures { result ≡ xor a.now b.now }
{
    let mut out = [0u8; 32];
    'octets: for i in 0..32 {
        out[i] = a[i] ^ b[i];
    }
    out
}

/// PRF under one SEED. Contracts see the one tree that has it.
///
/// `toByte(3, 32) || SEED` is one block of SHA-256, which is hashed once for all addresses.
#[derive(Drop)]
pub struct Prf {
    seed: [u8; 32],
    begun: Sha256,
}

impl Model for Prf {
    ghost use Rattle.std.specs.Prelude.{◌++◌};
    ghost use Rattle.sha2.specs.Hashers.{Holds256};
    ghost use Rattle.xmss_definitions.specs.Octets.{to_byte};
    ghost use Rattle.xmss_definitions.specs.Address.{Tree, only_tree};

    ghost Value = { Tree };

    ghost view = { λ p. only_tree p.seed };

    ghost invariant = { λ p. Holds256 p.begun (to_byte 3 32 ++ p.seed) };
}

impl Prf {
    /// PRF under this SEED.
    pub fn new(seed: &[u8; 32]) -> Prf
        ensures { result ≡ only_tree seed.now }
    {
        let mut begun = Sha256::new();
        begun.update(to_byte(3));
        begun.update(seed);
        Prf { seed: *seed, begun }
    }

    /// The value at a place of the one tree with this keyAndMask.
    #[tactic(auto, unfolding(xmss_definitions::specs::Wots::prf, xmss_definitions::specs::Wots::keyed))]
    pub fn at(&self, place: Place, mask: u32) -> [u8; 32]
        ensures { result ≡ prf self.now (place_of place) mask }
    {
        let address = Address {
            layer: 0,
            tree: 0,
            place,
        };
        let Ok(mut hasher) = self.begun.clone() else {
            unreachable!()
        };
        hasher.update(address.octets(mask));
        hasher.finalize()
    }
}

/// F, with the number 0.
#[tactic(auto, unfolding(xmss_definitions::specs::Wots::keyed))]
pub fn f(key: &[u8; 32], message: &[u8; 32]) -> [u8; 32]
    ensures { result ≡ keyed 0 key.now message.now }
{
    let mut hasher = Sha256::new();
    hasher.update(to_byte(0));
    hasher.update(key);
    hasher.update(message);
    hasher.finalize()
}

/// H of two values, with the number 1.
#[tactic(auto, unfolding(xmss_definitions::specs::Wots::keyed))]
pub fn h(key: &[u8; 32], left: &[u8; 32], right: &[u8; 32]) -> [u8; 32]
    ensures { result ≡ keyed 1 key.now (left.now ++ right.now) }
{
    let mut hasher = Sha256::new();
    hasher.update(to_byte(1));
    hasher.update(key);
    hasher.update(left);
    hasher.update(right);
    hasher.finalize()
}

/// The digest of a message that is signed, by H_msg under `r`, the root and the leaf's number
/// (section 4.1.9, algorithm 12).
#[tactic(auto, unfolding(xmss_definitions::specs::Keys::message_digest, xmss_definitions::specs::Wots::keyed))]
pub fn message_digest(r: &[u8], root: &[u8], idx: u32, message: &[u8]) -> [u8; 32]
    ensures { result ≡ message_digest r.now root.now idx message.now }
{
    let mut hasher = Sha256::new();
    hasher.update(to_byte(2));
    hasher.update(r);
    hasher.update(root);
    hasher.update(to_byte(idx));
    hasher.update(message);
    hasher.finalize()
}
