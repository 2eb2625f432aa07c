//! The L-tree over a leaf's chains, a tree's nodes, and the root over a leaf and its path (RFC
//! 8391, sections 4.1.4, 4.1.5 and 4.1.10). A signer makes the same nodes.

ghost use Rattle.std.specs.Prelude.{◌≡◌, ℕ, ◌+◌, ◌-◌, ◌*◌, ◌/◌, ◌^◌, ◌<◌, ◌≤◌, ◌++◌, length, take, drop};
ghost use Rattle.xmss_definitions.specs.Nodes.{pair, paired, l_tree, parent, node_over};
ghost use Rattle.xmssmt_verify.specs.Places.{place_of};

use crate::address::Place;
use crate::hashes::{Prf, h, xor};

/// The node over two nodes (section 4.1.4, algorithm 7).
#[tactic(auto, unfolding(xmss_definitions::specs::Nodes::pair))]
pub fn pair(prf: &Prf, place: Place, left: &[u8], right: &[u8]) -> [u8; 32]
    requires left { length left.now ≡ 32 }
    requires right { length right.now ≡ 32 }
    ensures { result ≡ pair prf.now (place_of place) left.now right.now }
{
    let left = xor(left, &prf.at(place, 1));
    let right = xor(right, &prf.at(place, 2));
    h(&prf.at(place, 0), &left, &right)
}

// One height of the L-tree over leaf `leaf`, in place: how many nodes are left at the front.
fn pair_up(prf: &Prf, leaf: u32, height: u32, nodes: &mut [[u8; 32]]) -> usize
    requires { length nodes.old ≤ 67 }
    ensures value { take result nodes.new ≡ paired prf.now leaf height 0 nodes.old }
    ensures count { result ≡ (length nodes.old + 1) / 2 }
{
    let count = nodes.len();
    'pairs: for i in 0..count / 2 {
        let place = Place::LTreePair {
            leaf,
            height,
            index: i as u32,
        };
        let node = pair(prf, place, &nodes[2 * i], &nodes[2 * i + 1]);
        nodes[i] = node;
    }
    if count % 2 == 1 {
        let last = nodes[count - 1];
        nodes[count / 2] = last;
    }
    count.div_ceil(2)
}

/// The top of the L-tree over the chain ends of leaf `leaf`, where an odd last node goes up as it
/// is (section 4.1.5, algorithm 8).
#[tactic(auto, unfolding(xmss_definitions::specs::Nodes::l_tree))]
pub fn l_tree(prf: &Prf, leaf: u32, ends: [[u8; 32]; 67]) -> [u8; 32]
    ensures { result ≡ l_tree prf.now leaf ends }
{
    let mut nodes = ends;
    let mut count = 67;
    'heights: for height in 0..7 {
        count = pair_up(prf, leaf, height, &mut nodes[..count]);
    }
    nodes[0]
}

// The parent of node `i`, which stands at height `n`, beside its sibling: an odd node is the right
// child.
#[tactic(auto, unfolding(xmss_definitions::specs::Nodes::parent))]
fn parent(prf: &Prf, n: u32, i: u32, value: &[u8; 32], sibling: &[u8]) -> [u8; 32]
    requires { length sibling.now ≡ 32 }
    ensures { result ≡ parent prf.now n i value.now sibling.now }
{
    let place = Place::TreePair {
        height: n,
        index: i / 2,
    };
    if i % 2 == 1 {
        pair(prf, place, sibling, value)
    } else {
        pair(prf, place, value, sibling)
    }
}

/// The root of a tree of this height over leaf `idx`, which has this value (section 4.1.10,
/// algorithm 13).
#[tactic(auto, using(xmss_definitions::proofs::Paths::node_over_none, xmss_definitions::proofs::Paths::node_over_more))]
pub fn root(prf: &Prf, height: usize, idx: u32, path: &[u8], leaf: &[u8; 32]) -> [u8; 32]
    requires few { height < 64 }
    requires whole { length path.now ≡ 32 * height }
    ensures { result ≡ node_over prf.now idx path.now leaf.now height }
{
    let mut value = *leaf;
    let mut i = idx;
    'heights: for n in 0..height {
        value = parent(prf, n as u32, i, &value, &path[32 * n..32 * n + 32]);
        i /= 2;
    }
    value
}
