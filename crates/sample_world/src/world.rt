//! A world: its keys, how many signatures each has made, and its calls.

ghost use Rattle.std.specs.Prelude.{◌≡◌, ◌≢◌, ◌↔◌, ◌⊎◌, ℕ, IsTrue, IfSome, ◌+◌, ◌<◌, ◌≤◌, ◌^◌, ◌≤ℤ◌, pos, neg_ℤ, IfOk, IfErr, OnOk, OnErr, length, replicate, slice_index, slice_set, slice_get, Some, Err};
ghost use Rattle.lms_verify.specs.Hss.{verdict};
ghost use Rattle.lms_verify.specs.Lms.{u32_at};
ghost use Rattle.lms_verify.specs.declared.Verdict.TheVariants.{Good};
ghost use Rattle.sample_world.specs.LmsSeed.{LmsSeed};
ghost use Rattle.sample_world.specs.World.{Ledger, secret_of, id_of, seed_of, key_of, signature_of, two_signatures_of, xmss_key_of, xmss_signature_of, xmssmt_key_of, xmssmt_signature_of, counted};
ghost use Rattle.sample_world.specs.Objects.{signed_of, certificate_of, list_of, token_with, token_within, token_of, token_counted};
ghost use Rattle.algorithms.specs.Digests.{size_of};
ghost use Rattle.der_values.specs.Fits.{IsObject};
ghost use Rattle.x509_certs.specs.Layouts as layout;
ghost use Rattle.jiff_core.specs.Calendar.{IsBetween};
ghost use Rattle.xmss_verify.specs.Xmss as xmss;
ghost use Rattle.xmss_definitions.specs.Keys as keys;
ghost use Rattle.xmss_verify.specs.declared.Verdict.TheVariants as xmss_good;
ghost use Rattle.xmssmt_verify.specs.XmssMt as xmssmt;
ghost use Rattle.xmssmt_verify.specs.declared.Verdict.TheVariants as xmssmt_good;

use crate::certificates::{Role, Terms, certificate_fields};
use crate::der_parts::{element, signed_object};
use crate::lists::list_fields;
use crate::lms_trees::{LmsTrees, Turn};
use crate::secrets::secret_of;
use crate::tokens::{attributes, signer_info, stamp_info, token};
use crate::xmss_trees::XmssTrees;
use crate::xmssmt_trees::{put_mt_key, put_mt_signature};
use algorithms::{Digest, DigestKind};
use std::alloc::{AllocError, Global};
use std::marker::Model;
use xa_io::{Octs, OutOfMemory};

/// Why a world gives no octets.
#[derive(Clone, Copy, Debug, PartialEq, Eq)]
pub enum WorldFault {
    /// A key that is needed has made all its signatures: 32 by an LMS key, 1,024 by the XMSS
    /// key and by the XMSS^MT key.
    Spent,
    /// Memory could not be had.
    OutOfMemory,
}

impl From<AllocError> for WorldFault {
    ghost use Rattle.std.specs.Prelude.{◌≡◌};
    ghost use Rattle.sample_world.specs.declared.world.WorldFault.{WorldFault};

    ghost from_gives = { λ _ fault. fault ≡ WorldFault.OutOfMemory };

    fn from(_: AllocError) -> WorldFault {
        WorldFault::OutOfMemory
    }
}

impl From<OutOfMemory> for WorldFault {
    ghost use Rattle.std.specs.Prelude.{◌≡◌};
    ghost use Rattle.sample_world.specs.declared.world.WorldFault.{WorldFault};

    ghost from_gives = { λ _ fault. fault ≡ WorldFault.OutOfMemory };

    fn from(_: OutOfMemory) -> WorldFault {
        WorldFault::OutOfMemory
    }
}

/// A world of keys. Contracts see its secret, how many signatures each key has made, and how many
/// tokens were made; the trees that it keeps make no difference but in time.
#[derive(Drop)]
pub struct World {
    alloc: Global,
    secret: [u8; 32],
    used: [u8; 256],
    xmss_used: u32,
    xmssmt_used: u32,
    tokens: u32,
    lms_trees: LmsTrees,
    xmss_trees: XmssTrees,
}

impl Model for World {
    ghost use Rattle.sample_world.specs.World.{Ledger};

    ghost Value = { Ledger };

    ghost view = { λ w. record { secret = w.secret; used = w.used; xmss_used = w.xmss_used; xmssmt_used = w.xmssmt_used; tokens = w.tokens } };

    ghost use Rattle.sample_world.specs.Counts.{AreCounts};

    ghost invariant = { λ w. AreCounts w.used w.tokens };
}

impl World {
    /// The world of a seed, whose keys have signed nothing.
    pub fn new(alloc: Global, seed: u64) -> World
        ensures { result ≡ record { secret = secret_of seed; used = replicate 256 0; xmss_used = 0; xmssmt_used = 0; tokens = 0 } }
    {
        World {
            alloc,
            secret: secret_of(seed),
            used: [0; 256],
            xmss_used: 0,
            xmssmt_used: 0,
            tokens: 0,
            lms_trees: LmsTrees::new(alloc),
            xmss_trees: XmssTrees::new(alloc),
        }
    }

    /// The HSS key, with L = 1, of LMS key `key`. With L = 2 in its fourth octet it is the key under
    /// which `sign_two` signs.
    pub fn key(&mut self, key: u32) -> Result<Octs, WorldFault>
        requires { key < 256 }
        ensures value { IfOk result (λ k. k ≡ key_of self.old 1 key) }
        ensures only_memory { IfErr result (λ fault. fault ≡ WorldFault.OutOfMemory) }
        ensures same { self.new ≡ self.old }
    {
        let mut out = Octs::new(self.alloc);
        out.push_all(&[0, 0, 0, 1])?;
        self.lms_trees
            .put_key(self.alloc, &self.secret, key, &mut out)?;
        Ok(out)
    }

    // Whether LMS key `key` has made all its signatures.
    fn is_spent(&self, key: u32) -> bool
        requires { key < 256 }
        ensures { IsTrue result ↔ (32 ≤ slice_index self.now.used key) }
    {
        self.used[key as usize] >= 32
    }

    // Counts one signature more by LMS key `key`.
    fn count(&mut self, key: u32)
        requires key { key < 256 }
        requires left { slice_index self.now.used key < 32 }
        ensures { self.new ≡ counted self.old key }
    {
        self.used[key as usize] += 1;
    }

    // The signature that LMS key `key` makes next, which isn't counted yet.
    fn next_signature(&mut self, key: u32, message: &[u8]) -> Result<Octs, WorldFault>
        requires key { key < 256 }
        requires left { slice_index self.now.used key < 32 }
        ensures value { IfOk result (λ s. s ≡ signature_of self.old key message.now) }
        ensures only_memory { IfErr result (λ fault. fault ≡ WorldFault.OutOfMemory) }
        ensures same { self.new ≡ self.old }
    {
        let turn = Turn {
            key,
            q: u32::from(self.used[key as usize]),
        };
        let mut out = Octs::new(self.alloc);
        out.push_all(&[0, 0, 0, 0])?;
        let trees = &mut self.lms_trees;
        trees.put_signature(self.alloc, &self.secret, turn, message, &mut out)?;
        Ok(out)
    }

    /// The next signature, of one level, that LMS key `key` makes. Its q is the number of the key's
    /// earlier signatures.
    pub fn sign(&mut self, key: u32, message: &[u8]) -> Result<Octs, WorldFault>
        requires { key < 256 }
        ensures value { IfOk result (λ s. s ≡ signature_of self.old key message.now) }
        ensures good { IfOk result (λ s. verdict (key_of self.old 1 key) message.now s ≡ Good) }
        ensures number { IfOk result (λ s. u32_at s 4 ≡ slice_index self.old.used key) }
        ensures counted { OnOk result (self.new ≡ counted self.old key) }

        ensures spent { (result ≡ Err WorldFault.Spent) ↔ (32 ≤ slice_index self.old.used key) }
        ensures err { OnErr result (self.new ≡ self.old) }
    {
        if self.is_spent(key) {
            return Err(WorldFault::Spent);
        }
        let out = self.next_signature(key, message)?;
        self.count(key);
        Ok(out)
    }

    /// The next signature, of two levels, that LMS key `upper` makes: it signs the key `lower`, and
    /// that signs the message.
    pub fn sign_two(&mut self, upper: u32, lower: u32, message: &[u8]) -> Result<Octs, WorldFault>
        requires upper { upper < 256 }
        requires lower { lower < 256 }
        requires differ { upper ≢ lower }
        ensures value { IfOk result (λ s. s ≡ two_signatures_of self.old upper lower message.now) }
        ensures good { IfOk result (λ s. verdict (key_of self.old 2 upper) message.now s ≡ Good) }
        ensures counted { OnOk result (self.new ≡ counted (counted self.old upper) lower) }

        ensures spent { (result ≡ Err WorldFault.Spent)
            ↔ ((32 ≤ slice_index self.old.used upper) ⊎ (32 ≤ slice_index self.old.used lower)) }
        ensures err { OnErr result (self.new ≡ self.old) }
    {
        let q = self.used[upper as usize];
        let p = self.used[lower as usize];
        if q >= 32 || p >= 32 {
            return Err(WorldFault::Spent);
        }
        let trees = &mut self.lms_trees;
        let mut key = Octs::new(self.alloc);
        trees.put_key(self.alloc, &self.secret, lower, &mut key)?;
        let signed = key.as_slice();
        let mut out = Octs::new(self.alloc);
        out.push_all(&[0, 0, 0, 1])?;
        let turn = Turn {
            key: upper,
            q: u32::from(q),
        };
        trees.put_signature(self.alloc, &self.secret, turn, signed, &mut out)?;
        out.push_all(signed)?;
        let turn = Turn {
            key: lower,
            q: u32::from(p),
        };
        trees.put_signature(self.alloc, &self.secret, turn, message, &mut out)?;
        self.used[upper as usize] = q + 1;
        self.used[lower as usize] = p + 1;
        Ok(out)
    }

    /// The XMSS key, of set 1.
    pub fn xmss_key(&mut self) -> Result<Octs, WorldFault>
        ensures value { IfOk result (λ k. k ≡ xmss_key_of self.old) }
        ensures only_memory { IfErr result (λ fault. fault ≡ WorldFault.OutOfMemory) }
        ensures same { self.new ≡ self.old }
    {
        let mut out = Octs::new(self.alloc);
        self.xmss_trees.put_key(self.alloc, &self.secret, &mut out)?;
        Ok(out)
    }

    /// The next signature that the XMSS key makes. Its idx is the number of the earlier ones.
    pub fn xmss_sign(&mut self, message: &[u8]) -> Result<Octs, WorldFault>
        ensures value { IfOk result (λ s. s ≡ xmss_signature_of self.old message.now) }
        ensures good { IfOk result (λ s. xmss.verdict (xmss_key_of self.old) message.now s ≡ xmss_good.Good) }
        ensures number { IfOk result (λ s. keys.u32_at s 0 ≡ self.old.xmss_used) }
        ensures counted { OnOk result (self.new ≡ record self.old { xmss_used = self.old.xmss_used + 1 }) }

        ensures spent { (result ≡ Err WorldFault.Spent) ↔ (1024 ≤ self.old.xmss_used) }
        ensures err { OnErr result (self.new ≡ self.old) }
    {
        let idx = self.xmss_used;
        if idx >= 1024 {
            return Err(WorldFault::Spent);
        }
        let mut out = Octs::new(self.alloc);
        let trees = &mut self.xmss_trees;
        trees.put_signature(self.alloc, &self.secret, idx, message, &mut out)?;
        self.xmss_used = idx + 1;
        Ok(out)
    }

    /// The XMSS^MT key, of set 2.
    pub fn xmssmt_key(&mut self) -> Result<Octs, WorldFault>
        ensures value { IfOk result (λ k. k ≡ xmssmt_key_of self.old) }
        ensures only_memory { IfErr result (λ fault. fault ≡ WorldFault.OutOfMemory) }
        ensures same { self.new ≡ self.old }
    {
        let mut out = Octs::new(self.alloc);
        put_mt_key(self.alloc, &self.secret, &mut out)?;
        Ok(out)
    }

    /// The next signature that the XMSS^MT key makes. Its idx is the number of the earlier ones.
    pub fn xmssmt_sign(&mut self, message: &[u8]) -> Result<Octs, WorldFault>
        ensures value { IfOk result (λ s. s ≡ xmssmt_signature_of self.old message.now) }
        ensures good { IfOk result (λ s. xmssmt.verdict (xmssmt_key_of self.old) message.now s ≡ xmssmt_good.Good) }
        ensures number { IfOk result (λ s. xmssmt.index_of 20 s ≡ self.old.xmssmt_used) }
        ensures counted { OnOk result (self.new ≡ record self.old { xmssmt_used = self.old.xmssmt_used + 1 }) }

        ensures spent { (result ≡ Err WorldFault.Spent) ↔ (1024 ≤ self.old.xmssmt_used) }
        ensures err { OnErr result (self.new ≡ self.old) }
    {
        let idx = self.xmssmt_used;
        if idx >= 1024 {
            return Err(WorldFault::Spent);
        }
        let mut out = Octs::new(self.alloc);
        put_mt_signature(self.alloc, &self.secret, idx, message, &mut out)?;
        self.xmssmt_used = idx + 1;
        Ok(out)
    }

    // The object of these fields, which LMS key `key` signs.
    fn signed(&mut self, key: u32, fields: &[u8]) -> Result<Octs, WorldFault>
        requires key { key < 256 }
        requires left { slice_index self.now.used key < 32 }
        ensures value { IfOk result (λ o. o ≡ signed_of self.old key fields.now) }
        ensures counted { OnOk result (self.new ≡ counted self.old key) }
        ensures only_memory { IfErr result (λ fault. fault ≡ WorldFault.OutOfMemory) }
        ensures err { OnErr result (self.new ≡ self.old) }
    {
        let to_be_signed = element(self.alloc, 0x30, fields)?;
        let to_be_signed = to_be_signed.as_slice();
        let signature = self.next_signature(key, to_be_signed)?;
        let object = signed_object(self.alloc, to_be_signed, signature.as_slice())?;
        self.count(key);
        Ok(object)
    }

    /// A certificate of key `subject` by key `issuer`. Its serial is `subject` + 1, and the names are
    /// `K` and the numbers. The times are seconds since 1970, of the years 1950 to 9999.
    pub fn certificate(
        &mut self,
        issuer: u32,
        subject: u32,
        from: i64,
        to: i64,
        role: Role,
    ) -> Result<Octs, WorldFault>
        requires issuer { issuer < 256 }
        requires subject { subject < 256 }
        requires from { IsBetween (neg_ℤ (pos 631_152_000)) (pos 253_402_300_799) from }
        requires to { IsBetween (neg_ℤ (pos 631_152_000)) (pos 253_402_300_799) to }
        ensures value { IfOk result (λ c. c ≡ certificate_of self.old issuer subject from to role) }
        ensures counted { OnOk result (self.new ≡ counted self.old issuer) }

        ensures spent { (result ≡ Err WorldFault.Spent) ↔ (32 ≤ slice_index self.old.used issuer) }
        ensures err { OnErr result (self.new ≡ self.old) }
    {
        if self.is_spent(issuer) {
            return Err(WorldFault::Spent);
        }
        let key = self.key(subject)?;
        let terms = Terms {
            issuer,
            subject,
            from,
            to,
            role,
        };
        let fields = certificate_fields(self.alloc, terms, key.as_slice())?;
        self.signed(issuer, fields.as_slice())
    }

    /// A CRL of key `issuer`, of the time `from`, with its next at `next`. `revoked` is the key whose
    /// certificate is listed, and the date of that. The times are seconds since 1970, of the years
    /// 1950 to 9999.
    pub fn crl(
        &mut self,
        issuer: u32,
        from: i64,
        next: i64,
        revoked: Option<(u32, i64)>,
    ) -> Result<Octs, WorldFault>
        requires issuer { issuer < 256 }
        requires from { IsBetween (neg_ℤ (pos 631_152_000)) (pos 253_402_300_799) from }
        requires next { IsBetween (neg_ℤ (pos 631_152_000)) (pos 253_402_300_799) next }
        requires key { IfSome revoked (λ r. r.0 < 256) }
        requires date { IfSome revoked (λ r. IsBetween (neg_ℤ (pos 631_152_000)) (pos 253_402_300_799) r.1) }
        ensures value { IfOk result (λ c. c ≡ list_of self.old issuer from next revoked) }
        ensures counted { OnOk result (self.new ≡ counted self.old issuer) }

        ensures spent { (result ≡ Err WorldFault.Spent) ↔ (32 ≤ slice_index self.old.used issuer) }
        ensures err { OnErr result (self.new ≡ self.old) }
    {
        if self.is_spent(issuer) {
            return Err(WorldFault::Spent);
        }
        let fields = list_fields(self.alloc, issuer, from, next, revoked)?;
        self.signed(issuer, fields.as_slice())
    }

    // The token of this TSTInfo, whose signature isn't counted yet.
    fn next_token(
        &mut self,
        signer: u32,
        certificate: &[u8],
        kind: DigestKind,
        info: &[u8],
    ) -> Result<Octs, WorldFault>
        requires signer { signer < 256 }
        requires left { slice_index self.now.used signer < 32 }
        requires whole { IsObject layout.certificate certificate.now }
        ensures value { IfOk result (λ t. t ≡ token_with self.old signer certificate.now kind info.now) }
        ensures only_memory { IfErr result (λ fault. fault ≡ WorldFault.OutOfMemory) }
        ensures same { self.new ≡ self.old }
    {
        let attributes = attributes(self.alloc, kind, info, certificate)?;
        let signed = attributes.as_slice();
        let set = element(self.alloc, 0x31, signed)?;
        let signature = self.next_signature(signer, set.as_slice())?;
        let signature = signature.as_slice();
        let signer_info = signer_info(self.alloc, kind, certificate, signed, signature)?;
        let token = token(self.alloc, kind, info, certificate, signer_info.as_slice())?;
        Ok(token)
    }

    /// A time-stamp token over the digest `covered` by the key `signer`, whose certificate it holds.
    /// Its three digests are of `kind`, its serial is the number of the world's tokens so far and 1,
    /// and it has no accuracy. `gen_time` is in seconds since 1970, of the years 1950 to 9999.
    pub fn token(
        &mut self,
        signer: u32,
        certificate: &[u8],
        covered: &Digest,
        kind: DigestKind,
        gen_time: i64,
    ) -> Result<Octs, WorldFault>
        requires signer { signer < 256 }
        requires whole { IsObject layout.certificate certificate.now }
        requires covered { length covered.now ≡ size_of kind }
        requires gen_time { IsBetween (neg_ℤ (pos 631_152_000)) (pos 253_402_300_799) gen_time }
        ensures value { IfOk result (λ t. t ≡ token_of self.old signer certificate.now covered.now kind gen_time) }
        ensures counted { OnOk result (self.new ≡ token_counted self.old signer) }

        ensures spent { (result ≡ Err WorldFault.Spent) ↔ (32 ≤ slice_index self.old.used signer) }
        ensures err { OnErr result (self.new ≡ self.old) }
    {
        self.token_within(signer, certificate, covered, kind, gen_time, 0)
    }

    /// The token of `token` with an accuracy of so many seconds, below 2^31; 0 leaves the field out.
    pub fn token_within(
        &mut self,
        signer: u32,
        certificate: &[u8],
        covered: &Digest,
        kind: DigestKind,
        gen_time: i64,
        accuracy: u32,
    ) -> Result<Octs, WorldFault>
        requires signer { signer < 256 }
        requires whole { IsObject layout.certificate certificate.now }
        requires covered { length covered.now ≡ size_of kind }
        requires gen_time { IsBetween (neg_ℤ (pos 631_152_000)) (pos 253_402_300_799) gen_time }
        requires accuracy { accuracy < 2 ^ 31 }
        ensures value { IfOk result (λ t. t ≡ token_within self.old signer certificate.now covered.now kind gen_time accuracy) }
        ensures counted { OnOk result (self.new ≡ token_counted self.old signer) }

        ensures spent { (result ≡ Err WorldFault.Spent) ↔ (32 ≤ slice_index self.old.used signer) }
        ensures err { OnErr result (self.new ≡ self.old) }
    {
        if self.is_spent(signer) {
            return Err(WorldFault::Spent);
        }
        let serial = self.tokens + 1;
        let covered = covered.as_slice();
        let info = stamp_info(self.alloc, kind, covered, serial, gen_time, accuracy)?;
        let token = self.next_token(signer, certificate, kind, info.as_slice())?;
        self.count(signer);
        self.tokens = serial;
        Ok(token)
    }
}
