//! LMS with SHA-256: the nodes of a tree, and the root over a leaf and its path (RFC 8554,
//! sections 5.3 and 5.4). A signer makes the same nodes, so they are public.

ghost use Rattle.std.specs.Prelude.{◌≡◌, ℕ, ◌+◌, ◌-◌, ◌*◌, ◌/◌, ◌^◌, ◌<◌, ◌≤◌, length};
ghost use Rattle.lms_verify.specs.Lms.{leaf, inner, parent, node_over};

use crate::lm_ots::Id;
use sha2::{Digest, Sha256};

/// The leaf with node number `r` over a one-time key (section 5.3).
#[tactic(auto, unfolding(crate::specs::Lms::leaf))]
pub fn leaf(id: &Id, r: u32, key: &[u8; 32]) -> [u8; 32]
    ensures { result ≡ leaf id.now r key.now }
{
    let mut hasher = Sha256::new();
    hasher.update(id);
    hasher.update(r.to_be_bytes());
    hasher.update([0x82, 0x82]);
    hasher.update(key);
    hasher.finalize()
}

/// Node `r` over its children (section 5.3).
#[tactic(auto, unfolding(crate::specs::Lms::inner))]
pub fn inner(id: &Id, r: u32, left: &[u8], right: &[u8]) -> [u8; 32]
    ensures { result ≡ inner id.now r left.now right.now }
{
    let mut hasher = Sha256::new();
    hasher.update(id);
    hasher.update(r.to_be_bytes());
    hasher.update([0x83, 0x83]);
    hasher.update(left);
    hasher.update(right);
    hasher.finalize()
}

// The parent of node `r`, beside its sibling: an odd node is the right child.
#[tactic(auto, unfolding(crate::specs::Lms::parent))]
fn parent(id: &Id, r: u32, value: &[u8; 32], sibling: &[u8]) -> [u8; 32]
    ensures { result ≡ parent id.now r value.now sibling.now }
{
    if r % 2 == 1 {
        inner(id, r / 2, sibling, value)
    } else {
        inner(id, r / 2, value, sibling)
    }
}

/// The root over leaf `q` of a tree of height `H`, whose one-time key is `key` (section 5.4.2,
/// algorithm 6a, step 4). Its node number is `2 ^ H + q`, and the root's is 1.
#[tactic(auto, using(crate::proofs::Paths::node_over_none, crate::proofs::Paths::node_over_more))]
pub fn root<const H: usize>(id: &Id, q: u32, path: &[u8], key: &[u8; 32]) -> [u8; 32]
    requires high { H < 31 }
    requires leaf { q < 2 ^ H }
    requires whole { length path.now ≡ 32 * H }
    ensures { result ≡ node_over id.now (2 ^ H + q) path.now (leaf id.now (2 ^ H + q) key.now) H }
{
    let mut r = (1 << H) + q;
    let mut value = leaf(id, r, key);
    'heights: for n in 0..H {
        value = parent(id, r, &value, &path[32 * n..32 * n + 32]);
        r /= 2;
    }
    value
}
