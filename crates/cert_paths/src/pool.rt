//! Pools of certificates and CRLs.

ghost use Rattle.std.specs.Prelude.{◌≡◌, ◌∷◌, ◌++◌, ◌+◌, ◌-◌, ◌<◌, ◌^◌, ℕ, [], length, slice_get, Some, IfOk, OnOk, OnErr, IsTrue, ◌↔◌, MatchOption};
ghost use Rattle.acceptance.specs.Certificates as objects;
ghost use Rattle.der_values.specs.Fits.{IsObject};
ghost use Rattle.cert_paths.specs.Pool.{seen, IsWhole, part_numbers, is_list_at, AreDistinct, Keeps};
ghost use Rattle.cert_paths.specs.Held.{part_of, layout_of, IsFresh, IsPlaceOf, IsLonger};

use crate::object::ObjectId;
use crate::place::Place;
use indexmap::IndexMap;
use std::alloc::Global;
use std::marker::Model;
use x509_certs::{Part, whole_certificate, whole_crl};
use xa_io::OutOfMemory;

/// Numbered objects, of which the certificates and CRLs are kept, distinct by their bytes.
#[derive(Drop)]
pub struct Pool {
    alloc: Global,
    objects: u32,
    held: IndexMap<Vec<u8>, Place>,
}

impl Model for Pool {
    ghost use Rattle.std.specs.Prelude.{List};
    ghost use Rattle.acceptance.specs.Certificates.{Part};
    ghost use Rattle.cert_paths.specs.Held.{parts_below, IsHeld};

    ghost Value = { List Part };

    ghost view = { λ p. parts_below p.objects p.held.entries };

    ghost invariant = { λ p. IsHeld p.objects p.held.entries };
}

// Bytes that are one whole certificate, or one whole CRL, which a pool keeps: they aren't judged again.
fn read_whole<'a>(bytes: &'a [u8], is_list: bool) -> Part<'a>
    requires { IsObject (layout_of is_list) bytes.now }
    ensures { seen result ≡ part_of is_list bytes.now }
{
    if is_list {
        Part::List(whole_crl(bytes))
    } else {
        Part::Cert(whole_certificate(bytes))
    }
}

// Where the certificate or CRL with these bytes stands.
fn place_of(held: &IndexMap<Vec<u8>, Place>, bytes: &[u8]) -> Option<Place>
    ensures { MatchOption result (IsFresh bytes.now held.now.entries) (IsPlaceOf bytes.now held.now.entries) }
{
    match held.get_full(bytes) {
        Some((_, _, place)) => Some(*place),
        None => None,
    }
}

// Puts bytes that aren't there behind those that are.
fn put_last(
    held: &mut IndexMap<Vec<u8>, Place>,
    alloc: Global,
    bytes: &[u8],
    place: Place,
) -> Result<(), OutOfMemory>
    requires { IsFresh bytes.now held.old.entries }
    ensures ok { OnOk result (IsLonger bytes.now place held.old.entries held.new.entries) }
    ensures err { OnErr result (held.new.entries ≡ held.old.entries) }
{
    let Ok(copy) = Vec::from_slice(alloc, bytes) else {
        return Err(OutOfMemory);
    };
    let Ok(_) = held.insert(copy, place) else {
        return Err(OutOfMemory);
    };
    Ok(())
}

impl Pool {
    /// A pool without objects.
    pub fn new(alloc: Global) -> Pool
        ensures { result ≡ [] }
    {
        Pool {
            alloc,
            objects: 0,
            held: IndexMap::new(alloc),
        }
    }

    /// How many objects there are. Their numbers are those below.
    pub fn objects(&self) -> u32
        ensures { result ≡ length self.now }
    {
        self.objects
    }

    /// The object of a number below `objects`.
    pub fn object(&self, number: u32) -> ObjectId
        requires { number < length self.now }
        ensures { result.number ≡ number }
    {
        ObjectId { number }
    }

    /// Gives the next number to an object that is neither a certificate nor a CRL.
    pub fn take(&mut self) -> ObjectId
        requires { length self.old < 2 ^ 32 - 1 }
        ensures pool { self.new ≡ self.old ++ objects.other ∷ [] }
        ensures number { result.number ≡ length self.old }
    {
        let number = self.objects;
        self.objects += 1;
        ObjectId { number }
    }

    /// How many certificates and CRLs there are.
    pub fn parts(&self) -> usize
        ensures count { result ≡ length (part_numbers self.now) }
        ensures few { result < 2 ^ 32 }
        ensures distinct { AreDistinct self.now }
    {
        let _objects = self.objects;
        self.held.len()
    }

    /// The certificate or CRL of a number below `parts`, in first-seen order.
    pub fn part(&self, number: usize) -> ObjectId
        requires { number < length (part_numbers self.now) }
        ensures { slice_get (part_numbers self.now) number ≡ Some result.number }
    {
        match self.held.get_index(number) {
            Some((_, place)) => ObjectId {
                number: place.number,
            },
            None => unreachable!(),
        }
    }

    /// Whether the part of a number below `parts` is a CRL.
    pub fn is_list(&self, number: usize) -> bool
        requires { number < length (part_numbers self.now) }
        ensures { result ≡ is_list_at self.now (slice_get (part_numbers self.now) number) }
    {
        match self.held.get_index(number) {
            Some((_, place)) => place.is_list,
            None => unreachable!(),
        }
    }

    /// The part of a number below `parts`.
    pub(crate) fn read(&self, number: usize) -> Part<'_>
        requires { number < length (part_numbers self.now) }
        ensures { (n : ℕ) → slice_get (part_numbers self.now) number ≡ Some n → slice_get self.now n ≡ Some (seen result) }
    {
        match self.held.get_index(number) {
            Some((bytes, place)) => read_whole(bytes.as_slice(), place.is_list),
            None => unreachable!(),
        }
    }

    // Keeps a whole certificate or CRL.
    fn hold(&mut self, bytes: &[u8], is_list: bool) -> Result<ObjectId, OutOfMemory>
        requires room { length self.old < 2 ^ 32 - 1 }
        requires whole { IsObject (layout_of is_list) bytes.now }
        ensures there { (n : ℕ) → slice_get self.old n ≡ Some (part_of is_list bytes.now) → OnOk result (self.new ≡ self.old) }
        ensures new { ((n : ℕ) → ¬ (slice_get self.old n ≡ Some (part_of is_list bytes.now))) → OnOk result (self.new ≡ self.old ++ part_of is_list bytes.now ∷ []) }
        ensures number { IfOk result (λ id. slice_get self.new id.number ≡ Some (part_of is_list bytes.now)) }
        ensures kept { OnOk result (Keeps self.old self.new) }
        ensures err { OnErr result (self.new ≡ self.old) }
    {
        if let Some(place) = place_of(&self.held, bytes) {
            return Ok(ObjectId {
                number: place.number,
            });
        }
        let number = self.objects;
        put_last(&mut self.held, self.alloc, bytes, Place { number, is_list })?;
        self.objects += 1;
        Ok(ObjectId { number })
    }

    /// Adds a whole certificate or CRL. One that is there by its bytes keeps its number; else it gets the next one.
    ///
    /// After `OutOfMemory` the pool is as before.
    pub fn add(&mut self, part: &Part<'_>) -> Result<ObjectId, OutOfMemory>
        requires room { length self.old < 2 ^ 32 - 1 }
        requires whole { IsWhole part.now }
        ensures there { (n : ℕ) → slice_get self.old n ≡ Some (seen part.now) → OnOk result (self.new ≡ self.old) }
        ensures new { ((n : ℕ) → ¬ (slice_get self.old n ≡ Some (seen part.now))) → OnOk result (self.new ≡ self.old ++ seen part.now ∷ []) }
        ensures number { IfOk result (λ id. slice_get self.new id.number ≡ Some (seen part.now)) }
        ensures kept { OnOk result (Keeps self.old self.new) }
        ensures err { OnErr result (self.new ≡ self.old) }
    {
        match part {
            Part::Cert(certificate) => self.hold(certificate.whole(), false),
            Part::List(list) => self.hold(list.whole(), true),
        }
    }
}
