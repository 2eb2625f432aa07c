//! LM-OTS with SHA-256: digits, chains, and the public key candidate of a one-time signature
//! (RFC 8554, sections 3.1.3 and 4). A signer takes the same steps, so they are public.

ghost use Rattle.std.specs.Prelude.{◌≡◌, ℕ, ◌+◌, ◌-◌, ◌*◌, ◌/◌, ◌^◌, ◌<◌, ◌≤◌, ◌++◌, length, take, drop};
ghost use Rattle.lms_verify.specs.LmOts.{coef, checksum, step_text, chain, message_digest, digits, candidate};

use sha2::{Digest, Sha256};

/// The 16 octets `I` that tell one LMS key from another (section 5.3).
pub type Id = [u8; 16];

// The greatest digit of `W` bits.
fn greatest<const W: usize>() -> u8
    requires low { 1 ≤ W }
    requires high { W ≤ 8 }
    ensures { result ≡ 2 ^ W - 1 }
{
    ((1u32 << W) - 1) as u8
}

/// The `i`-th digit of `W` bits (section 3.1.3).
pub fn coef<const W: usize>(s: &[u8], i: usize) -> u8
    requires low { 1 ≤ W }
    requires high { W ≤ 8 }
    requires few { i < 2 ^ 16 }
    requires within { i * W / 8 < length s.now }
    ensures value { result ≡ coef s.now i W }
    ensures below { result ≤ 2 ^ W - 1 }
{
    let shift = 8 - (W * (i % (8 / W)) + W);
    let part = u32::from(s[i * W / 8]) >> shift;
    (part % (1 << W)) as u8
}

// The checksum of the digits of a digest (section 4.4).
#[tactic(auto, using(crate::proofs::Chains::lacking_none, crate::proofs::Chains::lacking_more))]
fn checksum<const W: usize, const LS: usize>(digest: &[u8; 32]) -> u16
    requires low { 1 ≤ W }
    requires high { W ≤ 8 }
    requires shift { LS < 16 }
    requires fits { 256 / W * (2 ^ W - 1) * 2 ^ LS < 2 ^ 16 }
    ensures { result ≡ checksum W LS digest.now }
{
    let last = u32::from(greatest::<W>());
    let mut sum = 0u32;
    'digits: for i in 0..256 / W {
        sum += last - u32::from(coef::<W>(digest, i));
    }
    (sum << LS) as u16
}

// Writes a part over a step's text from place `at` on.

fn put(text: &mut [u8; 55], at: usize, part: &[u8])
    requires { at + length part.now ≤ 55 }
    ensures { text.new ≡ take at text.old ++ (part.now ++ drop (at + length part.now) text.old) }
{
    text[at..at + part.len()].copy_from_slice(part);
}

// What a step from `value` hashes, with 0 as the step's number, which stands at place 22.

fn step_text(id: &Id, q: u32, i: u16, value: &[u8]) -> [u8; 55]
    requires { length value.now ≡ 32 }
    ensures { result ≡ step_text id.now q i 0 value.now }
{
    let mut text = [0u8; 55];
    put(&mut text, 0, id);
    put(&mut text, 16, &q.to_be_bytes());
    put(&mut text, 20, &i.to_be_bytes());
    put(&mut text, 23, value);
    text
}

/// The value `count` steps up chain `i` of leaf `q`, from its value `start` at step `from`
/// (section 4.6, algorithm 4b, step 3).
#[tactic(auto, using(crate::proofs::Chains::chain_none, crate::proofs::Chains::chain_more))]
pub fn chain(id: &Id, q: u32, i: u16, from: u8, count: u8, start: &[u8]) -> [u8; 32]
    requires whole { length start.now ≡ 32 }
    requires within { from + count < 256 }
    ensures { result ≡ chain id.now q i from count start.now }
{
    // One block's text for all steps: only the step's number and the value change.
    let mut text = step_text(id, q, i, start);
    'steps: for n in 0..count {
        text[22] = from + n;
        let value = Sha256::digest(&text);
        put(&mut text, 23, &value);
    }
    let mut value = [0u8; 32];
    value.copy_from_slice(&text[23..]);
    value
}

/// The digest `Q` of a message under the randomizer `c` (section 4.5, step 3).
#[tactic(auto, unfolding(crate::specs::LmOts::message_digest))]
pub fn message_digest(id: &Id, q: u32, c: &[u8], message: &[u8]) -> [u8; 32]
    ensures { result ≡ message_digest id.now q c.now message.now }
{
    let mut hasher = Sha256::new();
    hasher.update(id);
    hasher.update(q.to_be_bytes());
    hasher.update([0x81, 0x81]);
    hasher.update(c);
    hasher.update(message);
    hasher.finalize()
}

/// The digest followed by its checksum, whose digits choose the steps (sections 4.4 and 4.5).
#[tactic(auto, using(crate::proofs::Chains::two_parts), unfolding(crate::specs::LmOts::digits))]
pub fn digits<const W: usize, const LS: usize>(digest: &[u8; 32]) -> [u8; 34]
    requires low { 1 ≤ W }
    requires high { W ≤ 8 }
    requires shift { LS < 16 }
    requires fits { 256 / W * (2 ^ W - 1) * 2 ^ LS < 2 ^ 16 }
    ensures { result ≡ digits W LS digest.now }
{
    let mut all = [0u8; 34];
    all[..32].copy_from_slice(digest);
    let sum = checksum::<W, LS>(digest).to_be_bytes();
    all[32..].copy_from_slice(&sum);
    all
}

/// The public key candidate of the signature `c`, `y` of `message` under leaf `q` (section 4.6,
/// algorithm 4b), for `P` chains of `W`-bit digits whose checksum is shifted left by `LS` bits.
#[tactic(auto, using(crate::proofs::Chains::ends_none, crate::proofs::Chains::ends_more), unfolding(crate::specs::LmOts::candidate))]
pub fn candidate<const W: usize, const P: usize, const LS: usize>(
    id: &Id,
    q: u32,
    c: &[u8],
    y: &[u8],
    message: &[u8],
) -> [u8; 32]
    requires low { 1 ≤ W }
    requires high { W ≤ 8 }
    requires shift { LS < 16 }
    requires fits { 256 / W * (2 ^ W - 1) * 2 ^ LS < 2 ^ 16 }
    requires chains { P * W ≤ 272 }
    requires whole { length y.now ≡ 32 * P }
    ensures { result ≡ candidate W P LS id.now q c.now y.now message.now }
{
    let digest = message_digest(id, q, c, message);
    let digits = digits::<W, LS>(&digest);
    let last = greatest::<W>();
    let mut hasher = Sha256::new();
    hasher.update(id);
    hasher.update(q.to_be_bytes());
    hasher.update([0x80, 0x80]);
    'chains: for i in 0..P {
        let from = coef::<W>(&digits, i);
        let start = &y[32 * i..32 * i + 32];
        hasher.update(chain(id, q, i as u16, from, last - from, start));
    }
    hasher.finalize()
}
