//! Cases: the objects of a signature, and the time-stamps over them.

ghost use Rattle.std.specs.Prelude.{◌≡◌, ◌∷◌, ◌++◌, ◌+◌, ◌-◌, ◌<◌, ◌≤◌, ◌^◌, ◌↔◌, ℕ, List, [], length, map, replicate, slice_get, Some, All, IsTrue, IfOk, OnOk, OnErr, MatchOption};
ghost use Rattle.der_values.specs.Fits.{IsObject};
ghost use Rattle.policy_rules.specs.View.{rules};
ghost use Rattle.tst_tokens.specs.Layouts as layout;
ghost use Rattle.acceptance.specs.Certificates as objects;
ghost use Rattle.acceptance.specs.Objects.{token_of};
ghost use Rattle.cert_paths.specs.Pool.{seen, IsWhole};
ghost use Rattle.existence_times.specs.Kept.{HasBytes, HasNumber, number_of, with_pool, with_token, with_stamp};
ghost use Rattle.existence_times.specs.Shown.{HasToken, HasSignerOf, KeepsCase, AreEarliestOf};

use crate::asking::earliest_by;
use crate::rows::{StampRow, TokenRow};
use cert_paths::{Links, ObjectId, Pool, Times};
use policy_rules::Policy;
use std::alloc::Global;
use std::marker::Model;
use x509_certs::Part;
use xa_io::OutOfMemory;

/// The objects of a signature by their numbers: its References, its value, certificates, CRLs and tokens, and the time-stamps over them.
#[derive(Drop)]
pub struct Case {
    pub(crate) alloc: Global,
    pub(crate) pool: Pool,
    pub(crate) references: u32,
    pub(crate) tokens: Vec<TokenRow>,
    pub(crate) stamps: Vec<StampRow>,
}

impl Model for Case {
    ghost use Rattle.std.specs.Prelude.{map};
    ghost use Rattle.existence_times.specs.Shown.{Shown};

    ghost Value = { Shown };

    ghost use Rattle.existence_times.specs.Kept.{shown_token, shown_stamp, IsKept};

    ghost view = { λ c. record { pool = c.pool; references = c.references; tokens = map shown_token c.tokens.items; stamps = map (shown_stamp c.tokens.items) c.stamps.items } };

    ghost invariant = { λ c. IsKept c.pool c.references c.tokens.items c.stamps.items };
}

// A pool of so many objects that are neither certificates nor CRLs.
fn pool_of(alloc: Global, count: u32) -> Pool
    requires { count ≤ 1_048_577 }
    ensures { result ≡ replicate count objects.other }
{
    let mut pool = Pool::new(alloc);
    for _ in 0..count {
        let _object = pool.take();
    }
    pool
}

fn is_bytes(row: &TokenRow, bytes: &[u8]) -> bool
    ensures { IsTrue result ↔ (row.now.bytes.items ≡ bytes.now) }
{
    row.bytes.as_slice() == bytes
}

fn has_bytes(rows: &[TokenRow], number: usize, bytes: &[u8]) -> bool
    ensures { IsTrue result ↔ HasBytes bytes.now (slice_get rows.now number) }
{
    match rows.get(number) {
        None => false,
        Some(row) => is_bytes(row, bytes),
    }
}

// The number of the token with these bytes among the tokens.
fn find_bytes(rows: &[TokenRow], bytes: &[u8]) -> Option<usize>
    ensures { MatchOption result
        ((k : ℕ) → k < length rows.now → ¬ (HasBytes bytes.now (slice_get rows.now k)))
        (λ k. (k < length rows.now) × HasBytes bytes.now (slice_get rows.now k)) }
{
    for number in 0..rows.len() {
        if has_bytes(rows, number, bytes) {
            return Some(number);
        }
    }
    None
}

fn has_object(rows: &[TokenRow], number: usize, object: ObjectId) -> bool
    ensures { IsTrue result ↔ HasNumber object.number (slice_get rows.now number) }
{
    match rows.get(number) {
        None => false,
        Some(row) => row.object == object,
    }
}

// The number of the token that is this object among the tokens.
fn find_object(rows: &[TokenRow], object: ObjectId) -> Option<usize>
    ensures { MatchOption result
        ((k : ℕ) → k < length rows.now → ¬ (HasNumber object.number (slice_get rows.now k)))
        (λ k. (k < length rows.now) × HasNumber object.number (slice_get rows.now k)) }
{
    for number in 0..rows.len() {
        if has_object(rows, number, object) {
            return Some(number);
        }
    }
    None
}

impl Case {
    /// A case with so many References, and nothing else but the signature value.
    pub fn new(alloc: Global, references: u32) -> Case
        requires { references ≤ 1_048_576 }
        ensures { result ≡ record { pool = replicate (references + 1) objects.other; references = references; tokens = []; stamps = [] } }
    {
        Case {
            alloc,
            pool: pool_of(alloc, references + 1),
            references,
            tokens: Vec::new(alloc),
            stamps: Vec::new(alloc),
        }
    }

    /// The objects.
    pub fn pool(&self) -> &Pool
        ensures { result.now ≡ self.now.pool }
    {
        &self.pool
    }

    /// The octets of a Reference, by its number from 1.
    pub fn reference(&self, k: u32) -> ObjectId
        requires { (1 ≤ k) × (k ≤ self.now.references) }
        ensures number { result.number ≡ k - 1 }
        ensures within { result.number < length self.now.pool }
    {
        self.pool.object(k - 1)
    }

    /// The signature value.
    pub fn value(&self) -> ObjectId
        ensures number { result.number ≡ self.now.references }
        ensures within { result.number < length self.now.pool }
    {
        self.pool.object(self.references)
    }

    /// Adds a whole certificate or CRL. One that is there by its bytes keeps its number; else it gets the next one.
    ///
    /// After `OutOfMemory` the case is as before.
    pub fn add_part(&mut self, part: &Part<'_>) -> Result<ObjectId, OutOfMemory>
        requires room { length self.old.pool < 2 ^ 32 - 1 }
        requires whole { IsWhole part.now }
        ensures there { (n : ℕ) → slice_get self.old.pool n ≡ Some (seen part.now) → OnOk result (self.new ≡ self.old) }
        ensures new { ((n : ℕ) → ¬ (slice_get self.old.pool n ≡ Some (seen part.now))) → OnOk result (self.new ≡ with_pool self.old (self.old.pool ++ seen part.now ∷ [])) }
        ensures number { IfOk result (λ id. slice_get self.new.pool id.number ≡ Some (seen part.now)) }
        ensures kept { OnOk result (KeepsCase self.old self.new) }
        ensures err { OnErr result (self.new ≡ self.old) }
    {
        let Ok(object) = self.pool.add(part) else {
            return Err(OutOfMemory);
        };
        Ok(object)
    }

    /// Adds a whole token alone; its certificates are added by `add_part`. One that is there by its bytes keeps its number; else it
    /// gets the next one.
    ///
    /// After `OutOfMemory` the case is as before.
    pub fn add_token(&mut self, bytes: &[u8]) -> Result<ObjectId, OutOfMemory>
        requires room { length self.old.pool < 2 ^ 32 - 1 }
        requires whole { IsObject layout.token bytes.now }
        ensures there { (n : ℕ) → HasToken self.old n bytes.now → OnOk result (self.new ≡ self.old) }
        ensures new { ((n : ℕ) → ¬ (HasToken self.old n bytes.now)) → OnOk result (self.new ≡ with_token self.old bytes.now) }
        ensures number { IfOk result (λ id. HasToken self.new id.number bytes.now) }
        ensures within { IfOk result (λ id. id.number < length self.new.pool) }
        ensures kept { OnOk result (KeepsCase self.old self.new) }
        ensures err { OnErr result (self.new ≡ self.old) }
    {
        if let Some(number) = find_bytes(self.tokens.as_slice(), bytes) {
            return Ok(self.tokens[number].object);
        }
        let Ok(bytes) = Vec::from_slice(self.alloc, bytes) else {
            return Err(OutOfMemory);
        };
        let Ok(_) = self.tokens.reserve(1) else {
            return Err(OutOfMemory);
        };
        let object = self.pool.take();
        match self.tokens.push(TokenRow { object, bytes }) {
            Ok(_) => Ok(object),
            Err(_) => unreachable!(),
        }
    }

    /// Adds a time-stamp: its token, which is an object of the case and whose signer, where it has one, is in the pool; whether it is
    /// sound over the octets that its property covers; and the objects that it covers.
    ///
    /// After `OutOfMemory` the case is as before.
    pub fn add_stamp(
        &mut self,
        token: ObjectId,
        sound: bool,
        covers: &Vec<ObjectId>,
    ) -> Result<(), OutOfMemory>
        requires token { (bytes : List ℕ) × HasToken self.old token.number bytes × HasSignerOf self.old.pool (token_of bytes) }
        requires covers { All (λ y. y < length self.old.pool) (map number_of covers.now.items) }
        ensures ok { (bytes : List ℕ) → HasToken self.old token.number bytes →
            OnOk result (self.new ≡ with_stamp self.old (record { object = token.number; token = bytes; sound = sound; covers = map number_of covers.now.items })) }
        ensures err { OnErr result (self.new ≡ self.old) }
    {
        let Some(number) = find_object(self.tokens.as_slice(), token) else {
            unreachable!()
        };
        let Ok(covers) = Vec::from_slice(self.alloc, covers.as_slice()) else {
            return Err(OutOfMemory);
        };
        let row = StampRow {
            object: token,
            token: number,
            sound,
            covers,
        };
        let Ok(_) = self.stamps.push(row) else {
            return Err(OutOfMemory);
        };
        Ok(())
    }
}

/// The earliest proved time of each object at a moment: the closed list of times that no closed list exceeds at any object.
///
/// The moment is proved of each object, and what a sound stamp proves of all that it covers, where its token is accepted at a time
/// that is proved of the token.
pub fn earliest(alloc: Global, case: &Case, policy: &Policy, now: i64) -> Result<Times, OutOfMemory>
    ensures { IfOk result (λ times. AreEarliestOf (rules policy.now) case.now now times) }
{
    let links = Links::new(alloc, &case.pool, policy)?;
    earliest_by(alloc, &links, case, policy, now)
}
