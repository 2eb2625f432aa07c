//! Keys and signatures of LMS as octets (RFC 8554, 5.3 and 5.4).

ghost use Rattle.std.specs.Prelude.{◌≡◌, ℕ, true, ◌+◌, ◌*◌, ◌^◌, ◌<◌, ◌≤◌, length};
ghost use Rattle.lms_verify.specs.Lms.{u32_at, is_known, size_under, begins_under, id_of, root_under};

use crate::lm_ots::Id;
use crate::sets::{chains, height, one_time_key, tree_root};

/// The octets of a key.
pub const KEY: usize = 56;

/// The number of the four octets from place `at`.
#[tactic(auto, unfolding(crate::specs::Lms::u32_at))]
pub fn u32_at(bytes: &[u8], at: usize) -> u32
    requires { at + 4 ≤ length bytes.now }
    ensures { result ≡ u32_at bytes.now at }
{
    u32::from_be_bytes([bytes[at], bytes[at + 1], bytes[at + 2], bytes[at + 3]])
}

/// Whether both types of a key are in the tables.
#[tactic(auto, unfolding(crate::specs::Lms::is_known))]
pub fn is_known(key: &[u8]) -> bool
    requires { length key.now ≡ 56 }
    ensures { result ≡ is_known key.now }
{
    let tree = u32_at(key, 0);
    let one_time = u32_at(key, 4);
    1 <= one_time && one_time <= 4 && 5 <= tree && tree <= 9
}

/// How many octets a signature under a key has.
#[tactic(auto, unfolding(crate::specs::Lms::chains_of, crate::specs::Lms::height_of))]
pub fn size_under(key: &[u8]) -> usize
    requires { length key.now ≡ 56 }
    ensures value { result ≡ size_under key.now }
    ensures few { result ≤ 9324 }
{
    44 + 32 * (chains(u32_at(key, 4)) + height(u32_at(key, 0)))
}

/// Whether `bytes` begins with a signature of the key's types.
#[tactic(auto, unfolding(crate::specs::Lms::begins_under, crate::specs::Lms::chains_of, crate::specs::Lms::height_of))]
pub fn begins_under(key: &[u8], bytes: &[u8]) -> bool
    requires { length key.now ≡ 56 }
    ensures { result ≡ begins_under key.now bytes.now }
{
    let tree = u32_at(key, 0);
    let one_time = u32_at(key, 4);
    if bytes.len() < size_under(key) || u32_at(bytes, 4) != one_time {
        return false;
    }
    u32_at(bytes, 40 + 32 * chains(one_time)) == tree && u32_at(bytes, 0) < 1 << height(tree)
}

// The octets that tell the key from others.
fn id_of(key: &[u8]) -> Id
    requires { length key.now ≡ 56 }
    ensures { result ≡ id_of key.now }
{
    let mut id = [0u8; 16];
    id.copy_from_slice(&key[8..24]);
    id
}

/// The root that the signature at the front of `bytes` gives for a message.
#[tactic(auto, using(crate::proofs::KeyFacts::known_types, crate::proofs::KeyFacts::begins), unfolding(crate::specs::Lms::root_under, crate::specs::Lms::chains_of, crate::specs::Lms::height_of))]
pub fn root_under(key: &[u8], bytes: &[u8], message: &[u8]) -> [u8; 32]
    requires whole { length key.now ≡ 56 }
    requires known { is_known key.now ≡ true }
    requires begins { begins_under key.now bytes.now ≡ true }
    ensures { result ≡ root_under key.now bytes.now message.now }
{
    let tree = u32_at(key, 0);
    let one_time = u32_at(key, 4);
    let id = id_of(key);
    let q = u32_at(bytes, 0);
    let path = 44 + 32 * chains(one_time);
    let leaf = one_time_key(
        one_time,
        &id,
        q,
        &bytes[8..40],
        &bytes[40..path - 4],
        message,
    );
    tree_root(tree, &id, q, &bytes[path..path + 32 * height(tree)], &leaf)
}
