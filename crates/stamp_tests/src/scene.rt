//! A world, and a case over its objects.

ghost use Rattle.std.specs.Prelude.{◌≡◌, ◌<◌, ◌^◌, ◌≤ℤ◌, IfSome, length, pos, neg_ℤ};
ghost use Rattle.jiff_core.specs.Calendar.{IsBetween};

use algorithms::{Digest, DigestKind, Hasher};
use cert_paths::ObjectId;
use existence_times::Case;
use policy_rules::Policy;
use sample_cases::{earliest_times, put_list, put_stamp, trusting};
use sample_world::{Role, World};
use std::alloc::Global;
use std::test::Fail;
use x509_certs::read_certificate;
use xa_io::{Octets, Octs};

/// The day of the judging.
pub(crate) const NOW: u16 = 100;

/// The begin of the stampers' certificates.
pub(crate) const BEGIN: u16 = 10;

/// Where a certificate ends after the day of the judging.
pub(crate) const LATE: u16 = 1000;

/// The first second of a day, counted from the first one of 2030.
pub(crate) fn day(number: u16) -> i64
    ensures { IsBetween (neg_ℤ (pos 631_152_000)) (pos 253_402_300_799) result }
{
    1_893_456_000 + i64::from(number) * 86_400
}

/// The SHA-256 that each token is over.
pub(crate) fn covered() -> Digest
    ensures { length result ≡ 32 }
{
    let mut hasher = Hasher::new(DigestKind::Sha256);
    hasher.put(b"covered");
    hasher.finish()
}

// The entry of key 1 in a CRL, from a day on.
fn entry(date: Option<u16>) -> Option<(u32, i64)>
    ensures key { IfSome result (λ r. r.0 < 256) }
    ensures date { IfSome result (λ r. IsBetween (neg_ℤ (pos 631_152_000)) (pos 253_402_300_799) r.1) }
{
    match date {
        Some(number) => Some((1, day(number))),
        None => None,
    }
}

fn are_days(times: &[i64], days: &[u16]) -> bool {
    if times.len() != days.len() {
        return false;
    }
    times
        .iter()
        .zip(days.iter())
        .all(|(time, number)| *time == day(*number))
}

/// A world whose keys sign, a policy, and a case with one Reference, which is object 0; object 1 is the value.
#[derive(Drop)]
pub(crate) struct Scene {
    pub(crate) alloc: Global,
    pub(crate) world: World,
    pub(crate) policy: Policy,
    pub(crate) case: Case,
}

impl Scene {
    /// A scene in which a key is the anchor's.
    pub(crate) fn new(alloc: Global, trusted: u32) -> Result<Scene, Fail>
        requires { trusted < 256 }
    {
        let mut world = World::new(alloc, 7);
        let anchor = world.certificate(trusted, trusted, day(0), day(LATE), Role::Authority)?;
        let policy = trusting(alloc, anchor.as_slice())?;
        let case = Case::new(alloc, 1);
        Ok(Scene {
            alloc,
            world,
            policy,
            case,
        })
    }

    /// Puts a CRL of key 0 into the case, which is current up to a day and may list key 1. It is one object.
    pub(crate) fn list(&mut self, next: u16, revoked: Option<u16>) -> Result<(), Fail> {
        let list = self.world.crl(0, day(0), day(next), entry(revoked))?;
        put_list(&mut self.case, list.as_slice())?;
        Ok(())
    }

    /// A token by a key with a certificate of its, of a time and with an accuracy in seconds.
    pub(crate) fn token_with(
        &mut self,
        key: u32,
        certificate: &[u8],
        of: u16,
        accuracy: u32,
    ) -> Result<Octs, Fail>
        requires key { key < 256 }
        requires accuracy { accuracy < 2 ^ 31 }
    {
        let Ok(_) = read_certificate(certificate) else {
            return Err(Fail::new("no certificate"));
        };
        let kind = DigestKind::Sha256;
        let world = &mut self.world;
        Ok(world.token_within(key, certificate, &covered(), kind, day(of), accuracy)?)
    }

    /// A token of a day by a key, whose certificate is by key 0 and lasts up to another day.
    pub(crate) fn token(&mut self, key: u32, until: u16, of: u16) -> Result<Octs, Fail>
        requires { key < 256 }
    {
        let world = &mut self.world;
        let certificate = world.certificate(0, key, day(BEGIN), day(until), Role::Stamper)?;
        self.token_with(key, certificate.as_slice(), of, 0)
    }

    /// Puts a stamp into the case. The certificate of its signer and its token are two objects, where they aren't there yet.
    pub(crate) fn stamp(
        &mut self,
        token: &Octs,
        sound: bool,
        covers: &[u32],
    ) -> Result<ObjectId, Fail> {
        let object = put_stamp(self.alloc, &mut self.case, token.as_slice(), sound, covers)?;
        Ok(object)
    }

    /// Whether the earliest times of the objects are these days.
    pub(crate) fn proves(&self, days: &[u16]) -> Result<bool, Fail> {
        let times = earliest_times(self.alloc, &self.case, &self.policy, day(NOW))?;
        Ok(are_days(times.as_slice(), days))
    }
}
