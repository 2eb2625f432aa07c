//! Which certificates of the made-up world are accepted and complete, and at which times.

ghost use Rattle.std.specs.Prelude.{◌≡◌, ◌≤◌, ◌<◌, ◌≤ℤ◌, IfSome, length, pos, neg_ℤ};
ghost use Rattle.jiff_core.specs.Calendar.{IsBetween};

use cert_paths::{ObjectId, Pool, Times, accepted, complete};
use existence_times::Case;
use policy_rules::Policy;
use sample_cases::{put_certificate, put_list, trusting};
use sample_world::{Role, World};
use std::alloc::Global;
use std::test::Fail;
use xa_io::Octs;

// The first second of 2030, and a day.
const START: i64 = 1_893_456_000;

const DAY: i64 = 86_400;

// The end of the certificates.
const END: i64 = START + 1000 * DAY;

// The moment at which the leaf is judged, which is the nextUpdate of the CRLs that are current up to it.
const AT: i64 = START + 10 * DAY;

// A world whose key 0 is the anchor, and a case that keeps certificates and CRLs.
#[derive(Drop)]
struct Scene {
    alloc: Global,
    world: World,
    policy: Policy,
    case: Case,
}

impl Scene {
    fn new(alloc: Global) -> Result<Scene, Fail> {
        let mut world = World::new(alloc, 7);
        let anchor = world.certificate(0, 0, START, END, Role::Authority)?;
        let policy = trusting(alloc, anchor.as_slice())?;
        let case = Case::new(alloc, 0);
        Ok(Scene {
            alloc,
            world,
            policy,
            case,
        })
    }

    // Puts a CRL of a key that is current up to the moment.
    fn list(&mut self, issuer: u32) -> Result<ObjectId, Fail>
        requires { issuer < 256 }
    {
        let list = self.world.crl(issuer, START, AT, None)?;
        Ok(put_list(&mut self.case, list.as_slice())?)
    }

    // Puts a CRL of the anchor that is past its nextUpdate and lists key 1 from a time on.
    fn old_list(&mut self, date: i64) -> Result<(), Fail>
        requires { IsBetween (neg_ℤ (pos 631_152_000)) (pos 253_402_300_799) date }
    {
        let list = self.world.crl(0, START, START + DAY, Some((1, date)))?;
        put_list(&mut self.case, list.as_slice())?;
        Ok(())
    }

    // A certificate by a key.
    fn certificate(&mut self, issuer: u32, subject: u32, role: Role) -> Result<Octs, Fail>
        requires issuer { issuer < 256 }
        requires subject { subject < 256 }
    {
        Ok(self.world.certificate(issuer, subject, START, END, role)?)
    }

    // Whether a certificate, which is put into the pool, is accepted with this moment as the time of each object.
    fn accepts(&mut self, leaf: &[u8], low: i64, at: i64) -> Result<bool, Fail> {
        put_certificate(&mut self.case, leaf)?;
        let pool = self.case.pool();
        let times = Times::flat(self.alloc, pool.objects(), at)?;
        Ok(accepted(self.alloc, pool, &times, leaf, low, at, &self.policy)?)
    }

    // Whether a certificate, which is put into the pool, is complete.
    fn completes(&mut self, leaf: &[u8]) -> Result<bool, Fail> {
        put_certificate(&mut self.case, leaf)?;
        Ok(complete(self.alloc, self.case.pool(), leaf, &self.policy)?)
    }

    fn accepts_in_its_time(&mut self, leaf: &[u8]) -> Result<bool, Fail> {
        Ok(
            self.accepts(leaf, START, AT)?
                && self.accepts(leaf, START, START)?
                && !self.accepts(leaf, START, AT + 1)?
                && !self.accepts(leaf, START - 1, AT)?,
        )
    }
}

#[test]
fn one_certificate_below_the_anchor(rt: HostRuntime) -> Result<(), Fail> {
    let mut scene = Scene::new(rt.alloc())?;
    let leaf = scene.certificate(0, 1, Role::Signer)?;
    let leaf = leaf.as_slice();
    assert!(rt; !scene.completes(leaf)?);
    assert!(rt; !scene.accepts(leaf, START, AT)?);
    scene.list(0)?;
    assert!(rt; scene.completes(leaf)?);
    assert!(rt; scene.accepts_in_its_time(leaf)?);
    Ok(())
}

// Whether a leaf is accepted where a list that is past its nextUpdate at the moment revokes it from a time on.
fn is_accepted_beside(alloc: Global, date: i64) -> Result<bool, Fail>
    requires { IsBetween (neg_ℤ (pos 631_152_000)) (pos 253_402_300_799) date }
{
    let mut scene = Scene::new(alloc)?;
    let leaf = scene.certificate(0, 1, Role::Signer)?;
    scene.list(0)?;
    scene.old_list(date)?;
    scene.accepts(leaf.as_slice(), START, AT)
}

#[test]
fn an_old_list_counts(rt: HostRuntime) -> Result<(), Fail> {
    assert!(rt; !is_accepted_beside(rt.alloc(), AT - 1)?);
    assert!(rt; !is_accepted_beside(rt.alloc(), AT)?);
    assert!(rt; is_accepted_beside(rt.alloc(), AT + 1)?);
    Ok(())
}

// Whether the last of so many certificates and one, each issued by the one before it and the first by the anchor, is accepted.
fn is_chain_accepted(alloc: Global, count: u32) -> Result<bool, Fail>
    requires { count ≤ 9 }
{
    let mut scene = Scene::new(alloc)?;
    for issuer in 0..count {
        scene.list(issuer)?;
        let certificate = scene.certificate(issuer, issuer + 1, Role::Authority)?;
        put_certificate(&mut scene.case, certificate.as_slice())?;
    }
    let last = scene.certificate(count, 20, Role::Signer)?;
    scene.list(count)?;
    scene.accepts(last.as_slice(), START, AT)
}

#[test]
fn eight_certificates_below_the_anchor(rt: HostRuntime) -> Result<(), Fail> {
    assert!(rt; is_chain_accepted(rt.alloc(), 7)?);
    Ok(())
}

#[test]
fn nine_certificates_below_the_anchor(rt: HostRuntime) -> Result<(), Fail> {
    assert!(rt; !is_chain_accepted(rt.alloc(), 8)?);
    Ok(())
}

// Whether the parts of a pool are object 1, which is a certificate, and object 2, which is a CRL.
fn are_parts(pool: &Pool, list: ObjectId) -> bool {
    pool.objects() == 3
        && pool.object(2) == list
        && pool.parts() == 2
        && pool.part(1) == list
        && !pool.is_list(0)
        && pool.is_list(1)
}

#[test]
fn a_pool_of_objects(rt: HostRuntime) -> Result<(), Fail> {
    let mut scene = Scene::new(rt.alloc())?;
    let leaf = scene.certificate(0, 1, Role::Signer)?;
    put_certificate(&mut scene.case, leaf.as_slice())?;
    let list = scene.list(0)?;
    assert!(rt; are_parts(scene.case.pool(), list));
    Ok(())
}

// Whether the time of an object, which is 50, falls to 40, and not to 60.
fn falls(times: &mut Times, object: ObjectId) -> bool
    requires { object.number < length times.old }
    ensures { length times.new ≡ length times.old }
{
    times.lower(object, 60);
    let kept = times.time(object) == 50;
    times.lower(object, 40);
    kept && times.time(object) == 40
}

#[test]
fn times_only_fall(rt: HostRuntime) -> Result<(), Fail> {
    let case = Case::new(rt.alloc(), 1);
    let mut times = Times::flat(rt.alloc(), 2, 50)?;
    assert!(rt; falls(&mut times, case.value()));
    if case.pool().objects() == 2 {
        assert!(rt; times.time(case.reference(1)) == 50);
    }
    Ok(())
}
