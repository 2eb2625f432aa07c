//! The octets that follow from a world's secret: each is a hash of it, a letter and numbers.

ghost use Rattle.std.specs.Prelude.{◌≡◌, ℕ, ◌++◌, ◌∷◌, []};
ghost use Rattle.std.specs.Int.{w64, to_be_bytes};
ghost use Rattle.sha2.specs.Sha256.{sha256};
ghost use Rattle.lms_verify.specs.LmOts.{u32str};
ghost use Rattle.sample_world.specs.World.{secret_of, id_of, seed_of, randomizer, xmss_secret, xmss_seed, xmss_randomizer, xmssmt_secret, xmssmt_seed, xmssmt_randomizer};

use lms_verify::lm_ots::Id;
use sha2::{Digest, Sha256};

// The hash under a letter and one number.
fn by_number(secret: &[u8; 32], letter: u8, number: u32) -> [u8; 32]
    ensures { result ≡ sha256 (secret.now ++ (letter ∷ []) ++ u32str number) }
{
    let mut hasher = Sha256::new();
    hasher.update(secret);
    hasher.update([letter]);
    hasher.update(number.to_be_bytes());
    hasher.finalize()
}

// The hash under a letter and two numbers.
fn by_numbers(secret: &[u8; 32], letter: u8, first: u32, second: u32) -> [u8; 32]
    ensures { result ≡ sha256 (secret.now ++ (letter ∷ []) ++ u32str first ++ u32str second) }
{
    let mut hasher = Sha256::new();
    hasher.update(secret);
    hasher.update([letter]);
    hasher.update(first.to_be_bytes());
    hasher.update(second.to_be_bytes());
    hasher.finalize()
}

/// A world's secret.
#[tactic(auto, unfolding(crate::specs::World::secret_of))]
pub fn secret_of(seed: u64) -> [u8; 32]
    ensures { result ≡ secret_of seed }
{
    Sha256::digest(seed.to_be_bytes())
}

/// `I` of an LMS key.
#[tactic(auto, unfolding(crate::specs::World::id_of))]
pub fn id_of(secret: &[u8; 32], key: u32) -> Id
    ensures { result ≡ id_of secret.now key }
{
    let hash = by_number(secret, b'I', key);
    let mut id = [0u8; 16];
    id.copy_from_slice(&hash[..16]);
    id
}

/// SEED of an LMS key.
#[tactic(auto, unfolding(crate::specs::World::seed_of))]
pub fn seed_of(secret: &[u8; 32], key: u32) -> [u8; 32]
    ensures { result ≡ seed_of secret.now key }
{
    by_number(secret, b'K', key)
}

/// The randomizer `C` of a key's signature `q`.
#[tactic(auto, unfolding(crate::specs::World::randomizer))]
pub fn randomizer(secret: &[u8; 32], key: u32, q: u32) -> [u8; 32]
    ensures { result ≡ randomizer secret.now key q }
{
    by_numbers(secret, b'C', key, q)
}

/// The secret of a chain of a leaf of the XMSS key.
#[tactic(auto, unfolding(crate::specs::World::xmss_secret))]
pub fn xmss_secret(secret: &[u8; 32], leaf: u32, chain: u32) -> [u8; 32]
    ensures { result ≡ xmss_secret secret.now leaf chain }
{
    by_numbers(secret, b'X', leaf, chain)
}

/// SEED of the XMSS key.
#[tactic(auto, unfolding(crate::specs::World::xmss_seed))]
pub fn xmss_seed(secret: &[u8; 32]) -> [u8; 32]
    ensures { result ≡ xmss_seed secret.now }
{
    let mut hasher = Sha256::new();
    hasher.update(secret);
    hasher.update(b"Y");
    hasher.finalize()
}

/// The randomizer `r` of XMSS signature `idx`.
#[tactic(auto, unfolding(crate::specs::World::xmss_randomizer))]
pub fn xmss_randomizer(secret: &[u8; 32], idx: u32) -> [u8; 32]
    ensures { result ≡ xmss_randomizer secret.now idx }
{
    by_number(secret, b'R', idx)
}

/// The secret of a chain of a leaf of a tree of the XMSS^MT key.
#[tactic(auto, unfolding(crate::specs::World::xmssmt_secret))]
pub fn xmssmt_secret(secret: &[u8; 32], layer: u32, tree: u64, leaf: u32, chain: u32) -> [u8; 32]
    ensures { result ≡ xmssmt_secret secret.now layer tree leaf chain }
{
    let mut hasher = Sha256::new();
    hasher.update(secret);
    hasher.update(b"Z");
    hasher.update(layer.to_be_bytes());
    hasher.update(tree.to_be_bytes());
    hasher.update(leaf.to_be_bytes());
    hasher.update(chain.to_be_bytes());
    hasher.finalize()
}

/// SEED of the XMSS^MT key.
#[tactic(auto, unfolding(crate::specs::World::xmssmt_seed))]
pub fn xmssmt_seed(secret: &[u8; 32]) -> [u8; 32]
    ensures { result ≡ xmssmt_seed secret.now }
{
    let mut hasher = Sha256::new();
    hasher.update(secret);
    hasher.update(b"W");
    hasher.finalize()
}

/// The randomizer `r` of XMSS^MT signature `idx`.
#[tactic(auto, unfolding(crate::specs::World::xmssmt_randomizer))]
pub fn xmssmt_randomizer(secret: &[u8; 32], idx: u64) -> [u8; 32]
    ensures { result ≡ xmssmt_randomizer secret.now idx }
{
    let mut hasher = Sha256::new();
    hasher.update(secret);
    hasher.update(b"Q");
    hasher.update(idx.to_be_bytes());
    hasher.finalize()
}
