//! The XMSS^MT key of set 2 that a world's secret makes: four layers of trees of height 5 (RFC 8391,
//! section 4.2).

ghost use Rattle.std.specs.Prelude.{◌≡◌, ℕ, ◌+◌, ◌*◌, ◌^◌, ◌<◌, ◌≤◌, ◌++◌, IfOk, OnOk, length};
ghost use Rattle.sample_world.specs.Joined.{joined, listed};
ghost use Rattle.sample_world.specs.World.{xmssmt_secret, xmssmt_seed, xmssmt_randomizer};
ghost use Rattle.sample_world.specs.XmssKeys.{chain_end, node, ots_values, path};
ghost use Rattle.sample_world.specs.XmssMtKeys.{mt_key, mt_signature, layer_in, layer_of, root_in, top_tree};
ghost use Rattle.sample_world.specs.MtTrees.{MadeTree, tree_of, secrets_of};

use crate::nodes::sibling;
use crate::secrets::{xmssmt_randomizer, xmssmt_secret, xmssmt_seed};
use std::alloc::{AllocError, Global};
use std::marker::Model;
use xa_io::{Octs, OutOfMemory};
use xmssmt_verify::address::Place;
use xmssmt_verify::hashes::{Prf, message_digest};
use xmssmt_verify::tree::{l_tree, pair};
use xmssmt_verify::wots::{chain, digit, digits};

// A tree with its 32 leaves. Contracts see the secret, the layer and the number there.
#[derive(Drop)]
struct MtTree {
    secret: [u8; 32],
    layer: u32,
    number: u64,
    prf: Prf,
    leaves: Vec<[u8; 32]>,
}

impl Model for MtTree {
    ghost use Rattle.std.specs.Prelude.{◌≡◌};
    ghost use Rattle.sample_world.specs.Joined.{listed};
    ghost use Rattle.sample_world.specs.XmssKeys.{leaf};
    ghost use Rattle.sample_world.specs.MtTrees.{MadeTree, tree_of, secrets_of};

    ghost Value = { MadeTree };

    ghost view = { λ t. record { secret = t.secret; layer = t.layer; number = t.number } };

    ghost invariant = { λ t. let made : MadeTree = record { secret = t.secret; layer = t.layer; number = t.number } in
        (t.prf ≡ tree_of made) × (t.leaves.items ≡ listed (leaf (tree_of made) (secrets_of made)) 32) };
}

// The ends of the chains of a leaf, by the secrets of its tree.
fn chain_ends(prf: &Prf, secret: &[u8; 32], layer: u32, number: u64, leaf: u32) -> [[u8; 32]; 67]
    ensures { result ≡ listed (chain_end prf.now (xmssmt_secret secret.now layer number) leaf) 67 }
{
    let mut ends = [[0u8; 32]; 67];
    'chains: for i in 0..67 {
        let start = xmssmt_secret(secret, layer, number, leaf, i as u32);
        ends[i] = chain(prf, leaf, i as u32, 0, 15, &start);
    }
    ends
}

impl MtTree {
    // Tree `number` of a layer of the key of a secret.
    fn new(alloc: Global, secret: &[u8; 32], layer: u32, number: u64) -> Result<MtTree, AllocError>
        ensures { IfOk result (λ t. t ≡ record { secret = secret.now; layer = layer; number = number }) }
    {
        let prf = Prf::new(&xmssmt_seed(secret), layer, number);
        let mut leaves = Vec::new(alloc);
        'leaves: for l in 0..32u32 {
            let ends = chain_ends(&prf, secret, layer, number, l);
            leaves.push(l_tree(&prf, l, ends))?;
        }
        Ok(MtTree {
            secret: *secret,
            layer,
            number,
            prf,
            leaves,
        })
    }

    // Node `i` of height `n`.
    #[tactic(auto, using(crate::proofs::XmssTrees::node_inner))]
    fn node(&self, i: u32, n: u32) -> [u8; 32]
        requires { (i + 1) * 2 ^ n ≤ 32 }
        ensures { result ≡ node (tree_of self.now) (secrets_of self.now) i n }
    {
        if n == 0 {
            self.leaves[i as usize]
        } else {
            let left = self.node(2 * i, n - 1);
            let right = self.node(2 * i + 1, n - 1);
            let place = Place::TreePair {
                height: n - 1,
                index: i,
            };
            pair(&self.prf, place, &left, &right)
        }
    }

    // Appends the values of the one-time signature of a digest.
    #[tactic(auto, unfolding(crate::specs::XmssKeys::ots_values))]
    fn put_values(&self, out: &mut Octs, idx: u32, digest: &[u8; 32]) -> Result<(), OutOfMemory>
        ensures { OnOk result
            (out.new ≡ out.old ++ ots_values (tree_of self.now) (secrets_of self.now) idx digest.now) }
    {
        let digits = digits(digest);
        'chains: for i in 0..67 {
            let start = xmssmt_secret(&self.secret, self.layer, self.number, idx, i as u32);
            let steps = u32::from(digit(&digits, i));
            let value = chain(&self.prf, idx, i as u32, 0, steps, &start);
            out.push_all(&value)?;
        }
        Ok(())
    }

    // Appends the authentication path of leaf `idx`.
    #[tactic(auto, unfolding(crate::specs::XmssKeys::path))]
    fn put_path(&self, out: &mut Octs, idx: u32) -> Result<(), OutOfMemory>
        requires { idx < 32 }
        ensures { OnOk result
            (out.new ≡ out.old ++ path 5 (tree_of self.now) (secrets_of self.now) idx) }
    {
        let mut i = idx;
        'heights: for n in 0..5u32 {
            let value = self.node(sibling(i), n);
            out.push_all(&value)?;
            i /= 2;
        }
        Ok(())
    }

    // Appends the signature of a digest by leaf `idx`.
    #[tactic(auto, unfolding(crate::specs::XmssMtKeys::layer_in))]
    fn put_layer(&self, out: &mut Octs, idx: u32, digest: &[u8; 32]) -> Result<(), OutOfMemory>
        requires { idx < 32 }
        ensures { OnOk result (out.new
            ≡ out.old ++ layer_in (tree_of self.now) (xmssmt_secret self.now.secret) idx digest.now) }
    {
        self.put_values(out, idx, digest)?;
        self.put_path(out, idx)
    }
}

// The root of a tree of the key of a secret.
fn top_root(alloc: Global, secret: &[u8; 32]) -> Result<[u8; 32], AllocError>
    ensures { IfOk result
        (λ root. root ≡ root_in (top_tree (xmssmt_seed secret.now)) (xmssmt_secret secret.now)) }
{
    let tree = MtTree::new(alloc, secret, 3, 0)?;
    Ok(tree.node(0, 5))
}

/// Appends the public key of a world with this secret.
#[tactic(auto, unfolding(crate::specs::XmssMtKeys::mt_key))]
pub fn put_mt_key(alloc: Global, secret: &[u8; 32], out: &mut Octs) -> Result<(), OutOfMemory>
    ensures { OnOk result
        (out.new ≡ out.old ++ mt_key (xmssmt_seed secret.now) (xmssmt_secret secret.now)) }
{
    let Ok(root) = top_root(alloc, secret) else {
        return Err(OutOfMemory);
    };
    out.push_all(&[0, 0, 0, 2])?;
    out.push_all(&root)?;
    out.push_all(&xmssmt_seed(secret))
}

// Appends the signatures of the four layers: the lowest of the digest, each other one of the root of
// the tree below.
fn put_layers(
    alloc: Global,
    secret: &[u8; 32],
    idx: u32,
    digest: &[u8; 32],
    out: &mut Octs,
) -> Result<(), OutOfMemory>
    ensures { OnOk result (out.new ≡ out.old
        ++ joined (layer_of (xmssmt_seed secret.now) (xmssmt_secret secret.now) idx digest.now) 4) }
{
    let mut signed = *digest;
    let mut rest = idx;
    'layers: for layer in 0..4u32 {
        let leaf = rest % 32;
        rest /= 32;
        let Ok(tree) = MtTree::new(alloc, secret, layer, u64::from(rest)) else {
            return Err(OutOfMemory);
        };
        tree.put_layer(out, leaf, &signed)?;
        signed = tree.node(0, 5);
    }
    Ok(())
}

/// Appends signature `idx` of a message by the key of a world with this secret.
#[tactic(auto, unfolding(crate::specs::XmssMtKeys::mt_signature))]
pub fn put_mt_signature(
    alloc: Global,
    secret: &[u8; 32],
    idx: u32,
    message: &[u8],
    out: &mut Octs,
) -> Result<(), OutOfMemory>
    ensures { OnOk result (out.new ≡ out.old ++ mt_signature (xmssmt_seed secret.now)
        (xmssmt_secret secret.now) idx (xmssmt_randomizer secret.now idx) message.now) }
{
    let Ok(root) = top_root(alloc, secret) else {
        return Err(OutOfMemory);
    };
    let r = xmssmt_randomizer(secret, u64::from(idx));
    let digest = message_digest(&r, &root, u64::from(idx), message);
    let octets = idx.to_be_bytes();
    out.push_all(&octets[1..])?;
    out.push_all(&r)?;
    put_layers(alloc, secret, idx, &digest, out)
}
