//! LMS keys of type 5 with LM-OTS type 4 that are made from a seed (RFC 8554, sections 4 and 5, and
//! Appendix A).

ghost use Rattle.std.specs.Prelude.{◌≡◌, ℕ, ◌+◌, ◌*◌, ◌^◌, ◌<◌, ◌≤◌, ◌++◌, ◌↔◌, IsTrue, IfOk, OnOk, length, slice_get, Some, []};
ghost use Rattle.sample_world.specs.LmsSeed.{LmsSeed};
ghost use Rattle.sample_world.specs.LmsKeys.{secret, ots_values, path, one_time_key, node, lms_key, lms_signature};
ghost use Rattle.sample_world.specs.World.{id_of, seed_of, randomizer};

use crate::nodes::sibling;
use crate::secrets::{id_of, randomizer, seed_of};
use lms_verify::lm_ots::{Id, chain, coef, digits, message_digest};
use lms_verify::lms::{inner, leaf};
use sha2::{Digest, Sha256};
use std::alloc::{AllocError, Global};
use std::marker::Model;
use xa_io::{Octs, OutOfMemory};

// Secret `i` of leaf `q`.
#[tactic(auto, unfolding(crate::specs::LmsKeys::secret))]
fn secret(seed: &[u8; 32], id: &Id, q: u32, i: u16) -> [u8; 32]
    ensures { result ≡ secret seed.now id.now q i }
{
    let mut hasher = Sha256::new();
    hasher.update(id);
    hasher.update(q.to_be_bytes());
    hasher.update(i.to_be_bytes());
    hasher.update([0xff]);
    hasher.update(seed);
    hasher.finalize()
}

// The one-time key of leaf `q`.
#[tactic(auto, unfolding(crate::specs::LmsKeys::one_time_key))]
fn one_time_key(seed: &[u8; 32], id: &Id, q: u32) -> [u8; 32]
    ensures { result ≡ one_time_key seed.now id.now q }
{
    let mut hasher = Sha256::new();
    hasher.update(id);
    hasher.update(q.to_be_bytes());
    hasher.update([0x80, 0x80]);
    'chains: for i in 0..34 {
        let start = secret(seed, id, q, i);
        hasher.update(chain(id, q, i, 0, 255, &start));
    }
    hasher.finalize()
}

// A key with its 32 leaves, which cost most of the work. Contracts see the seed and `I`.
#[derive(Drop)]
struct LmsTree {
    seed: [u8; 32],
    id: Id,
    leaves: Vec<[u8; 32]>,
}

impl Model for LmsTree {
    ghost use Rattle.std.specs.Prelude.{◌≡◌};
    ghost use Rattle.sample_world.specs.LmsSeed.{LmsSeed};
    ghost use Rattle.sample_world.specs.Joined.{listed};
    ghost use Rattle.sample_world.specs.LmsKeys.{leaf_of};

    ghost Value = { LmsSeed };

    ghost view = { λ t. record { seed = t.seed; id = t.id } };

    ghost invariant = { λ t. t.leaves.items ≡ listed (leaf_of t.seed t.id) 32 };
}

impl LmsTree {
    // The key of a seed.
    fn new(alloc: Global, seed: &[u8; 32], id: &Id) -> Result<LmsTree, AllocError>
        ensures { IfOk result (λ t. t ≡ record { seed = seed.now; id = id.now }) }
    {
        let mut leaves = Vec::new(alloc);
        'leaves: for q in 0..32u32 {
            leaves.push(leaf(id, 32 + q, &one_time_key(seed, id, q)))?;
        }
        Ok(LmsTree {
            seed: *seed,
            id: *id,
            leaves,
        })
    }

    // Whether the key is made from these.
    fn is_of(&self, seed: &[u8; 32], id: &Id) -> bool
        ensures { IsTrue result ↔ (self.now ≡ record { seed = seed.now; id = id.now }) }
    {
        self.seed == *seed && self.id == *id
    }

    // Node `r`, `n` heights above the leaves.
    #[tactic(auto, using(crate::proofs::Trees::node_inner))]
    fn node(&self, r: u32, n: u32) -> [u8; 32]
        requires low { 32 ≤ r * 2 ^ n }
        requires high { (r + 1) * 2 ^ n ≤ 64 }
        ensures { result ≡ node self.now.seed self.now.id r n }
    {
        if n == 0 {
            self.leaves[(r - 32) as usize]
        } else {
            let left = self.node(2 * r, n - 1);
            let right = self.node(2 * r + 1, n - 1);
            inner(&self.id, r, &left, &right)
        }
    }

    // Appends the public key.
    #[tactic(auto, unfolding(crate::specs::LmsKeys::lms_key))]
    fn put_key(&self, out: &mut Octs) -> Result<(), OutOfMemory>
        ensures { OnOk result (out.new ≡ out.old ++ lms_key self.now.seed self.now.id) }
    {
        out.push_all(&[0, 0, 0, 5, 0, 0, 0, 4])?;
        out.push_all(&self.id)?;
        let root = self.node(1, 5);
        out.push_all(&root)
    }

    // Appends the values of the one-time signature of a message.
    #[tactic(auto, unfolding(crate::specs::LmsKeys::ots_values))]
    fn put_values(
        &self,
        out: &mut Octs,
        q: u32,
        c: &[u8; 32],
        message: &[u8],
    ) -> Result<(), OutOfMemory>
        ensures { OnOk result
            (out.new ≡ out.old ++ ots_values self.now.seed self.now.id q c.now message.now) }
    {
        let digest = message_digest(&self.id, q, c, message);
        let digits = digits::<8, 0>(&digest);
        'chains: for i in 0..34 {
            let start = secret(&self.seed, &self.id, q, i as u16);
            let value = chain(&self.id, q, i as u16, 0, coef::<8>(&digits, i), &start);
            out.push_all(&value)?;
        }
        Ok(())
    }

    // Appends the authentication path of leaf `q`.
    #[tactic(auto, unfolding(crate::specs::LmsKeys::path))]
    fn put_path(&self, out: &mut Octs, q: u32) -> Result<(), OutOfMemory>
        requires { q < 32 }
        ensures { OnOk result (out.new ≡ out.old ++ path self.now.seed self.now.id (32 + q)) }
    {
        let mut r = 32 + q;
        'heights: for n in 0..5u32 {
            let value = self.node(sibling(r), n);
            out.push_all(&value)?;
            r /= 2;
        }
        Ok(())
    }

    // Appends the signature of a message by leaf `q` under the randomizer `c`.
    #[tactic(auto, unfolding(crate::specs::LmsKeys::lms_signature))]
    fn put_signature(
        &self,
        out: &mut Octs,
        q: u32,
        c: &[u8; 32],
        message: &[u8],
    ) -> Result<(), OutOfMemory>
        requires { q < 32 }
        ensures { OnOk result
            (out.new ≡ out.old ++ lms_signature self.now.seed self.now.id q c.now message.now) }
    {
        out.push_all(&q.to_be_bytes())?;
        out.push_all(&[0, 0, 0, 4])?;
        out.push_all(c)?;
        self.put_values(out, q, c, message)?;
        out.push_all(&[0, 0, 0, 5])?;
        self.put_path(out, q)
    }
}

/// Which signature is made: the key, and the number of its earlier ones.
#[derive(Clone, Copy, Debug)]
pub struct Turn {
    pub key: u32,
    pub q: u32,
}

/// The keys that were made so far. They make no difference to what is given, but in time.
#[derive(Drop)]
pub struct LmsTrees {
    trees: Vec<LmsTree>,
}

impl LmsTrees {
    /// No keys yet.
    pub fn new(alloc: Global) -> LmsTrees
        ensures { result.trees.items ≡ [] }
    {
        LmsTrees {
            trees: Vec::new(alloc),
        }
    }

    // The place of a key, which is made where it isn't there yet.
    fn place(&mut self, alloc: Global, secret: &[u8; 32], key: u32) -> Result<usize, AllocError>
        ensures { IfOk result (λ i. slice_get self.new.trees.items i
            ≡ Some (record { seed = seed_of secret.now key; id = id_of secret.now key })) }
    {
        let seed = seed_of(secret, key);
        let id = id_of(secret, key);
        for (i, tree) in self.trees.iter().enumerate() {
            if tree.is_of(&seed, &id) {
                return Ok(i);
            }
        }
        let place = self.trees.len();
        self.trees.push(LmsTree::new(alloc, &seed, &id)?)?;
        Ok(place)
    }

    /// Appends the public key of LMS key `key` of a world with this secret.
    pub fn put_key(
        &mut self,
        alloc: Global,
        secret: &[u8; 32],
        key: u32,
        out: &mut Octs,
    ) -> Result<(), OutOfMemory>
        ensures { OnOk result
            (out.new ≡ out.old ++ lms_key (seed_of secret.now key) (id_of secret.now key)) }
    {
        let Ok(place) = self.place(alloc, secret, key) else {
            return Err(OutOfMemory);
        };
        self.trees[place].put_key(out)
    }

    /// Appends the signature of a message that is a key's turn in a world with this secret.
    pub fn put_signature(
        &mut self,
        alloc: Global,
        secret: &[u8; 32],
        turn: Turn,
        message: &[u8],
        out: &mut Octs,
    ) -> Result<(), OutOfMemory>
        requires { turn.q < 32 }
        ensures { OnOk result (out.new ≡ out.old ++ lms_signature (seed_of secret.now turn.key)
            (id_of secret.now turn.key) turn.q (randomizer secret.now turn.key turn.q) message.now) }
    {
        let Ok(place) = self.place(alloc, secret, turn.key) else {
            return Err(OutOfMemory);
        };
        let c = randomizer(secret, turn.key, turn.q);
        self.trees[place].put_signature(out, turn.q, &c, message)
    }
}
