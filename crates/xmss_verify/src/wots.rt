//! WOTS+ with SHA-256, n = 32 and w = 16: chains, digits, and the ends of a one-time signature's
//! chains (RFC 8391, sections 2.6 and 3.1). A signer takes the same steps, so they are public.

ghost use Rattle.std.specs.Prelude.{◌≡◌, ℕ, ◌+◌, ◌-◌, ◌*◌, ◌/◌, ◌^◌, ◌<◌, ◌≤◌, length};
ghost use Rattle.xmss_definitions.specs.Wots.{step, chain, digit, lacking, digits, ends};

use crate::address::Place;
use crate::hashes::{Prf, f, xor};

// One step up a chain, from step `j`.
#[tactic(auto, unfolding(xmss_definitions::specs::Wots::step))]
fn step(prf: &Prf, leaf: u32, i: u32, j: u32, value: &[u8; 32]) -> [u8; 32]
    ensures { result ≡ step prf.now leaf i j value.now }
{
    let place = Place::ChainStep {
        leaf,
        chain: i,
        step: j,
    };
    let masked = xor(value, &prf.at(place, 1));
    f(&prf.at(place, 0), &masked)
}

/// The value `count` steps up chain `i` of a leaf, from its value `start` at step `from` (section
/// 3.1.2, algorithm 2).
#[tactic(auto, using(xmss_definitions::proofs::Chains::chain_none, xmss_definitions::proofs::Chains::chain_more))]
pub fn chain(prf: &Prf, leaf: u32, i: u32, from: u32, count: u32, start: &[u8]) -> [u8; 32]
    requires whole { length start.now ≡ 32 }
    requires within { from + count < 256 }
    ensures { result ≡ chain prf.now leaf i from count start.now }
{
    let mut value = [0u8; 32];
    value.copy_from_slice(start);
    'steps: for n in 0..count {
        value = step(prf, leaf, i, from + n, &value);
    }
    value
}

/// The `i`-th digit of four bits (section 2.6).
pub fn digit(s: &[u8], i: usize) -> u8
    requires { i / 2 < length s.now }
    ensures value { result ≡ digit s.now i }
    ensures below { result < 16 }
{
    if i % 2 == 0 {
        s[i / 2] / 16
    } else {
        s[i / 2] % 16
    }
}

// What the digits of a digest lack to 15, in all.
#[tactic(auto, using(xmss_definitions::proofs::Chains::lacking_none, xmss_definitions::proofs::Chains::lacking_more))]
fn lacking(digest: &[u8; 32]) -> u16
    ensures value { result ≡ lacking digest.now 64 }
    ensures few { result ≤ 960 }
{
    let mut sum = 0u16;
    'digits: for i in 0..64 {
        sum += 15 - u16::from(digit(digest, i));
    }
    sum
}

/// The digest followed by its checksum, whose first 67 digits choose the steps (section 3.1.5).
#[tactic(auto, using(xmss_definitions::proofs::Octets::two_parts), unfolding(xmss_definitions::specs::Wots::digits))]
pub fn digits(digest: &[u8; 32]) -> [u8; 34]
    ensures { result ≡ digits digest.now }
{
    let mut all = [0u8; 34];
    all[..32].copy_from_slice(digest);
    let sum = (lacking(digest) << 4).to_be_bytes();
    all[32..].copy_from_slice(&sum);
    all
}

/// The ends of the chains of the one-time signature `ots` of a digest (section 3.1.6, algorithm 6).
#[tactic(auto, using(xmss_definitions::proofs::Chains::ends_none, xmss_definitions::proofs::Chains::ends_more))]
pub fn ends(prf: &Prf, leaf: u32, digest: &[u8; 32], ots: &[u8]) -> [[u8; 32]; 67]
    requires { length ots.now ≡ 32 * 67 }
    ensures { result ≡ ends prf.now leaf (digits digest.now) ots.now 67 }
{
    let digits = digits(digest);
    let mut nodes = [[0u8; 32]; 67];
    'chains: for i in 0..67 {
        let from = u32::from(digit(&digits, i));
        let start = &ots[32 * i..32 * i + 32];
        nodes[i] = chain(prf, leaf, i as u32, from, 15 - from, start);
    }
    nodes
}
