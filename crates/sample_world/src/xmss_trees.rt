//! The XMSS key of set 1 that a world's secret makes (RFC 8391, sections 3.1 and 4.1).

ghost use Rattle.std.specs.Prelude.{◌≡◌, ℕ, ◌+◌, ◌*◌, ◌^◌, ◌<◌, ◌≤◌, ◌++◌, ◌↔◌, IsTrue, IfOk, OnOk, length, slice_get, Some, []};
ghost use Rattle.xmss_definitions.specs.Address.{only_tree};
ghost use Rattle.sample_world.specs.Joined.{listed};
ghost use Rattle.sample_world.specs.World.{xmss_secret, xmss_seed, xmss_randomizer};
ghost use Rattle.sample_world.specs.XmssKeys.{chain_end, leaf, node, key, ots_values, path, signature};

use crate::nodes::sibling;
use crate::secrets::{xmss_randomizer, xmss_secret, xmss_seed};
use std::alloc::{AllocError, Global};
use std::marker::Model;
use xa_io::{Octs, OutOfMemory};
use xmss_verify::address::Place;
use xmss_verify::hashes::{Prf, message_digest};
use xmss_verify::tree::{l_tree, pair};
use xmss_verify::wots::{chain, digit, digits};

// The ends of the chains of a leaf.
fn chain_ends(prf: &Prf, secret: &[u8; 32], leaf: u32) -> [[u8; 32]; 67]
    ensures { result ≡ listed (chain_end prf.now (xmss_secret secret.now) leaf) 67 }
{
    let mut ends = [[0u8; 32]; 67];
    'chains: for i in 0..67 {
        let start = xmss_secret(secret, leaf, i as u32);
        ends[i] = chain(prf, leaf, i as u32, 0, 15, &start);
    }
    ends
}

// A key with its 1,024 leaves, which cost most of the work. Contracts see the secret.
#[derive(Drop)]
struct XmssTree {
    secret: [u8; 32],
    prf: Prf,
    leaves: Vec<[u8; 32]>,
}

impl Model for XmssTree {
    ghost use Rattle.std.specs.Prelude.{◌≡◌, ℕ, List};
    ghost use Rattle.xmss_definitions.specs.Address.{only_tree};
    ghost use Rattle.sample_world.specs.Joined.{listed};
    ghost use Rattle.sample_world.specs.World.{xmss_secret, xmss_seed};
    ghost use Rattle.sample_world.specs.XmssKeys.{leaf};

    ghost Value = { List ℕ };

    ghost view = { λ t. t.secret };

    ghost invariant = { λ t. (t.prf ≡ only_tree (xmss_seed t.secret))
        × (t.leaves.items ≡ listed (leaf (only_tree (xmss_seed t.secret)) (xmss_secret t.secret)) 1024) };
}

impl XmssTree {
    // The key of a secret.
    fn new(alloc: Global, secret: &[u8; 32]) -> Result<XmssTree, AllocError>
        ensures { IfOk result (λ t. t ≡ secret.now) }
    {
        let prf = Prf::new(&xmss_seed(secret));
        let mut leaves = Vec::new(alloc);
        'leaves: for l in 0..1024u32 {
            leaves.push(l_tree(&prf, l, chain_ends(&prf, secret, l)))?;
        }
        Ok(XmssTree {
            secret: *secret,
            prf,
            leaves,
        })
    }

    // Whether the key is made from this secret.
    fn is_of(&self, secret: &[u8; 32]) -> bool
        ensures { IsTrue result ↔ (self.now ≡ secret.now) }
    {
        self.secret == *secret
    }

    // Node `i` of height `n`.
    #[tactic(auto, using(crate::proofs::XmssTrees::node_inner))]
    fn node(&self, i: u32, n: u32) -> [u8; 32]
        requires { (i + 1) * 2 ^ n ≤ 1024 }
        ensures { result ≡ node (only_tree (xmss_seed self.now)) (xmss_secret self.now) i n }
    {
        if n == 0 {
            self.leaves[i as usize]
        } else {
            let left = self.node(2 * i, n - 1);
            let right = self.node(2 * i + 1, n - 1);
            let place = Place::TreePair {
                height: n - 1,
                index: i,
            };
            pair(&self.prf, place, &left, &right)
        }
    }

    // Appends the public key.
    #[tactic(auto, unfolding(crate::specs::XmssKeys::key))]
    fn put_key(&self, out: &mut Octs) -> Result<(), OutOfMemory>
        ensures { OnOk result (out.new ≡ out.old ++ key (xmss_seed self.now) (xmss_secret self.now)) }
    {
        out.push_all(&[0, 0, 0, 1])?;
        let root = self.node(0, 10);
        out.push_all(&root)?;
        out.push_all(&xmss_seed(&self.secret))
    }

    // Appends the values of the one-time signature of a digest.
    #[tactic(auto, unfolding(crate::specs::XmssKeys::ots_values))]
    fn put_values(&self, out: &mut Octs, idx: u32, digest: &[u8; 32]) -> Result<(), OutOfMemory>
        ensures { OnOk result (out.new
            ≡ out.old ++ ots_values (only_tree (xmss_seed self.now)) (xmss_secret self.now) idx digest.now) }
    {
        let digits = digits(digest);
        'chains: for i in 0..67 {
            let start = xmss_secret(&self.secret, idx, i as u32);
            let steps = u32::from(digit(&digits, i));
            let value = chain(&self.prf, idx, i as u32, 0, steps, &start);
            out.push_all(&value)?;
        }
        Ok(())
    }

    // Appends the authentication path of leaf `idx`.
    #[tactic(auto, unfolding(crate::specs::XmssKeys::path))]
    fn put_path(&self, out: &mut Octs, idx: u32) -> Result<(), OutOfMemory>
        requires { idx < 1024 }
        ensures { OnOk result
            (out.new ≡ out.old ++ path 10 (only_tree (xmss_seed self.now)) (xmss_secret self.now) idx) }
    {
        let mut i = idx;
        'heights: for n in 0..10u32 {
            let value = self.node(sibling(i), n);
            out.push_all(&value)?;
            i /= 2;
        }
        Ok(())
    }

    // Appends the signature of a message by leaf `idx` under the randomizer `r`.
    #[tactic(auto, unfolding(crate::specs::XmssKeys::signature))]
    fn put_signature(
        &self,
        out: &mut Octs,
        idx: u32,
        r: &[u8; 32],
        message: &[u8],
    ) -> Result<(), OutOfMemory>
        requires { idx < 1024 }
        ensures { OnOk result (out.new
            ≡ out.old ++ signature (xmss_seed self.now) (xmss_secret self.now) idx r.now message.now) }
    {
        let root = self.node(0, 10);
        let digest = message_digest(r, &root, idx, message);
        out.push_all(&idx.to_be_bytes())?;
        out.push_all(r)?;
        self.put_values(out, idx, &digest)?;
        self.put_path(out, idx)
    }
}

/// The keys that were made so far. They make no difference to what is given, but in time.
#[derive(Drop)]
pub struct XmssTrees {
    trees: Vec<XmssTree>,
}

impl XmssTrees {
    /// No keys yet.
    pub fn new(alloc: Global) -> XmssTrees
        ensures { result.trees.items ≡ [] }
    {
        XmssTrees {
            trees: Vec::new(alloc),
        }
    }

    // The place of the key of a world with this secret, which is made where it isn't there yet.
    fn place(&mut self, alloc: Global, secret: &[u8; 32]) -> Result<usize, AllocError>
        ensures { IfOk result (λ i. slice_get self.new.trees.items i ≡ Some secret.now) }
    {
        for (i, tree) in self.trees.iter().enumerate() {
            if tree.is_of(secret) {
                return Ok(i);
            }
        }
        let place = self.trees.len();
        self.trees.push(XmssTree::new(alloc, secret)?)?;
        Ok(place)
    }

    /// Appends the public key of a world with this secret.
    pub fn put_key(
        &mut self,
        alloc: Global,
        secret: &[u8; 32],
        out: &mut Octs,
    ) -> Result<(), OutOfMemory>
        ensures { OnOk result
            (out.new ≡ out.old ++ key (xmss_seed secret.now) (xmss_secret secret.now)) }
    {
        let Ok(place) = self.place(alloc, secret) else {
            return Err(OutOfMemory);
        };
        self.trees[place].put_key(out)
    }

    /// Appends signature `idx` of a message by the key of a world with this secret.
    pub fn put_signature(
        &mut self,
        alloc: Global,
        secret: &[u8; 32],
        idx: u32,
        message: &[u8],
        out: &mut Octs,
    ) -> Result<(), OutOfMemory>
        requires { idx < 1024 }
        ensures { OnOk result (out.new ≡ out.old ++ signature (xmss_seed secret.now)
            (xmss_secret secret.now) idx (xmss_randomizer secret.now idx) message.now) }
    {
        let Ok(place) = self.place(alloc, secret) else {
            return Err(OutOfMemory);
        };
        let r = xmss_randomizer(secret, idx);
        self.trees[place].put_signature(out, idx, &r, message)
    }
}
