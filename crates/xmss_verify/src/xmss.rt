//! The verdict on a key, a message and a signature (RFC 8391, 4.1.10).

ghost use Rattle.std.specs.Prelude.{◌≡◌, ℕ, true, ◌+◌, ◌*◌, ◌^◌, ◌<◌, ◌≤◌, length};
ghost use Rattle.xmss_definitions.specs.Address.{only_tree};
ghost use Rattle.xmss_definitions.specs.Keys.{u32_at, seed_of};
ghost use Rattle.xmss_verify.specs.Xmss.{is_known, is_signature, root_under, verdict_under, verdict};

use crate::hashes::{Prf, message_digest};
use crate::tree::{l_tree, root};
use crate::wots::ends;
use crate::{Verdict, Why};

// The number of the four octets from place `at`.
#[tactic(auto, unfolding(xmss_definitions::specs::Keys::u32_at))]
fn u32_at(bytes: &[u8], at: usize) -> u32
    requires { at + 4 ≤ length bytes.now }
    ensures { result ≡ u32_at bytes.now at }
{
    u32::from_be_bytes([bytes[at], bytes[at + 1], bytes[at + 2], bytes[at + 3]])
}

// Whether the key's set is in the table.
#[tactic(auto, unfolding(crate::specs::Xmss::is_known))]
fn is_known(key: &[u8]) -> bool
    requires { length key.now ≡ 68 }
    ensures { result ≡ is_known key.now }
{
    let set = u32_at(key, 0);
    1 <= set && set <= 3
}

// Whether the octets are a signature of height `H`.
#[tactic(auto, unfolding(crate::specs::Xmss::is_signature))]
fn is_signature<const H: usize>(signature: &[u8]) -> bool
    requires { H < 31 }
    ensures { result ≡ is_signature H signature.now }
{
    signature.len() == 36 + 32 * (67 + H) && u32_at(signature, 0) < 1 << H
}

// PRF under the key's SEED.
fn prf_of(key: &[u8]) -> Prf
    requires { length key.now ≡ 68 }
    ensures { result ≡ only_tree (seed_of key.now) }
{
    let mut seed = [0u8; 32];
    seed.copy_from_slice(&key[36..68]);
    Prf::new(&seed)
}

// The root that a signature of height `H` gives.
#[tactic(auto, unfolding(crate::specs::Xmss::root_under, xmss_definitions::specs::Nodes::root_from))]
fn root_under<const H: usize>(key: &[u8], message: &[u8], signature: &[u8]) -> [u8; 32]
    requires few { H < 31 }
    requires key { length key.now ≡ 68 }
    requires whole { length signature.now ≡ 36 + 32 * (67 + H) }
    ensures { result ≡ root_under H key.now message.now signature.now }
{
    let prf = prf_of(key);
    let idx = u32_at(signature, 0);
    let digest = message_digest(&signature[4..36], &key[4..36], idx, message);
    let ends = ends(&prf, idx, &digest, &signature[36..2180]);
    let leaf = l_tree(&prf, idx, ends);
    root::<H>(&prf, idx, &signature[2180..2180 + 32 * H], &leaf)
}

// The verdict under a known key of height `H`.
#[tactic(auto, using(crate::proofs::Shape::long), unfolding(crate::specs::Xmss::verdict_under))]
fn verify_under<const H: usize>(key: &[u8], message: &[u8], signature: &[u8]) -> Verdict
    requires few { H < 31 }
    requires key { length key.now ≡ 68 }
    ensures { result ≡ verdict_under H key.now message.now signature.now }
{
    if !is_signature::<H>(signature) {
        return Verdict::Bad(Why::SignatureShape);
    }
    let got = root_under::<H>(key, message, signature);
    let mut want = [0u8; 32];
    want.copy_from_slice(&key[4..36]);
    if got == want {
        Verdict::Good
    } else {
        Verdict::Bad(Why::RootDiffers { got, want })
    }
}

// The call of a function that is generic by the height of a set.
macro_rules! by_set {
    ($set:expr, $f:ident $args:tt; $($sets:literal: $h:literal),+) => {
        match $set {
            $($sets => by_set!(@ $f $h $args),)+
            _ => unreachable!(),
        }
    };
    (@ $f:ident $h:literal ($($arg:expr),+)) => {
        $f::<$h>($($arg),+)
    };
}

/// The verdict on an XMSS key, a message and a signature.
#[tactic(auto, unfolding(crate::specs::Xmss::verdict, crate::specs::Xmss::is_known))]
pub fn verify(key: &[u8], message: &[u8], signature: &[u8]) -> Verdict
    ensures { result ≡ verdict key.now message.now signature.now }
{
    if key.len() != 68 {
        return Verdict::Bad(Why::KeyShape);
    }
    if !is_known(key) {
        return Verdict::Bad(Why::UnknownSet);
    }
    let set = u32_at(key, 0);
    by_set!(set, verify_under (key, message, signature); 1: 10, 2: 16, 3: 20)
}
