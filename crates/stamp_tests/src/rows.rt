//! Rows of the earliest times: what stamps prove alone, in turn, and where a signer is revoked.

use crate::scene::{BEGIN, LATE, NOW, Scene, day};
use cert_paths::ObjectId;
use existence_times::Case;
use sample_cases::{CaseFault, put_certificate, put_list, put_stamp, put_token};
use sample_world::Role;
use std::alloc::Global;
use std::test::Fail;
use xa_io::Octs;

// The end of the stamper's certificate, the day of its token, whether the stamp is sound, the nextUpdate of the CRL, and the day that is
// proved.
const ALONE: [(u16, u16, bool, u16, u16); 8] = [
    (NOW, 20, true, NOW, 20),
    (NOW, BEGIN, true, NOW, BEGIN),
    (NOW, 101, true, NOW, NOW),
    // The stamp isn't sound, its certificate has ended or hadn't begun, or the CRL is past its nextUpdate.
    (NOW, 20, false, NOW, NOW),
    (99, 20, true, NOW, NOW),
    (NOW, 9, true, NOW, NOW),
    (NOW, 20, true, 99, NOW),
    (NOW, 20, true, 20, NOW),
];

#[test]
fn a_stamp_alone(rt: HostRuntime) -> Result<(), Fail> {
    let mut scene = Scene::new(rt.alloc(), 0)?;
    for (until, of, sound, next, want) in ALONE {
        scene.case = Case::new(scene.alloc, 1);
        scene.list(next, None)?;
        let token = scene.token(1, until, of)?;
        scene.stamp(&token, sound, &[0, 1])?;
        assert!(rt; scene.proves(&[want, want, NOW, NOW, NOW])?);
    }
    Ok(())
}

// Whether a stamp proves nothing under another anchor.
fn is_nothing_elsewhere(alloc: Global, token: &Octs) -> Result<bool, Fail> {
    let mut scene = Scene::new(alloc, 9)?;
    scene.list(NOW, None)?;
    scene.stamp(token, true, &[0])?;
    scene.proves(&[NOW, NOW, NOW, NOW, NOW])
}

#[test]
fn a_stamper_without_a_walk(rt: HostRuntime) -> Result<(), Fail> {
    let mut scene = Scene::new(rt.alloc(), 0)?;
    let token = scene.token(1, LATE, 20)?;
    scene.stamp(&token, true, &[0])?;
    assert!(rt; scene.proves(&[NOW, NOW, NOW, NOW])?);
    scene.list(NOW, None)?;
    assert!(rt; scene.proves(&[20, NOW, NOW, NOW, NOW])?);
    assert!(rt; is_nothing_elsewhere(rt.alloc(), &token)?);
    Ok(())
}

// Stamps are judged from last to first. The last one's certificate has ended, so its token, object 4, is accepted only at the time that
// the stamp before it proves. It proves a time of that one's token, object 6, in turn.
fn prove_in_turn(scene: &mut Scene, ended: &Octs, until: u16, days: &[u16]) -> Result<bool, Fail> {
    scene.case = Case::new(scene.alloc, 1);
    scene.list(NOW, None)?;
    let token = scene.token(1, until, 40)?;
    put_token(&mut scene.case, ended.as_slice())?;
    scene.stamp(&token, true, &[4])?;
    scene.stamp(ended, true, &[0, 6])?;
    scene.proves(days)
}

#[test]
fn stamps_that_prove_in_turn(rt: HostRuntime) -> Result<(), Fail> {
    let mut scene = Scene::new(rt.alloc(), 0)?;
    let ended = scene.token(2, 50, 30)?;
    let days = [30, NOW, NOW, NOW, 40, NOW, 30];
    assert!(rt; prove_in_turn(&mut scene, &ended, LATE, &days)?);
    assert!(rt; prove_in_turn(&mut scene, &ended, 50, &[NOW; 7])?);
    Ok(())
}

// Puts the two stamps behind the first, whose tokens are objects 4 and 6, and those tokens before.
fn put_two_behind(scene: &mut Scene, first: &Octs) -> Result<(), Fail> {
    let second = scene.token(2, 50, 30)?;
    let third = scene.token(2, 45, 20)?;
    put_token(&mut scene.case, second.as_slice())?;
    put_token(&mut scene.case, third.as_slice())?;
    scene.stamp(first, true, &[4])?;
    scene.stamp(&second, true, &[6])?;
    scene.stamp(&third, true, &[0])?;
    Ok(())
}

// The first stamp proves a time of the second one's token, that one of the third one's, and that one of the Reference.
#[test]
fn stamps_in_three_rounds(rt: HostRuntime) -> Result<(), Fail> {
    let mut scene = Scene::new(rt.alloc(), 0)?;
    scene.list(NOW, None)?;
    let first = scene.token(1, LATE, 40)?;
    put_two_behind(&mut scene, &first)?;
    assert!(rt; scene.proves(&[20, NOW, NOW, NOW, 40, NOW, 30, NOW, NOW])?);
    Ok(())
}

// The signer of the first stamp is revoked from a day on, and the later stamp proves day 40 of its token.
#[test]
fn a_signer_that_is_revoked(rt: HostRuntime) -> Result<(), Fail> {
    let mut scene = Scene::new(rt.alloc(), 0)?;
    let first = scene.token(1, LATE, 20)?;
    let later = scene.token(2, LATE, 40)?;
    for (date, want) in [(0, NOW), (39, NOW), (40, NOW), (41, 20), (NOW, 20)] {
        scene.case = Case::new(scene.alloc, 1);
        scene.list(NOW, Some(date))?;
        scene.stamp(&first, true, &[0])?;
        scene.stamp(&later, true, &[3, 4])?;
        assert!(rt; scene.proves(&[want, NOW, NOW, 40, 40, NOW, NOW])?);
    }
    Ok(())
}

// Whether a CRL that is put twice is one object, and no certificate.
fn is_one_list(case: &mut Case, list: &[u8]) -> Result<bool, CaseFault> {
    let object = put_list(case, list)?;
    Ok(
        put_list(case, list)? == object
            && matches!(put_certificate(case, list), Err(CaseFault::Shape)),
    )
}

// Whether a certificate that is put twice is one object, and no CRL.
fn is_one_certificate(case: &mut Case, certificate: &[u8]) -> Result<bool, CaseFault> {
    let object = put_certificate(case, certificate)?;
    Ok(
        put_certificate(case, certificate)? == object
            && matches!(put_list(case, certificate), Err(CaseFault::Shape)),
    )
}

// Whether a token that is put twice is one object, and covers no object that isn't there.
fn is_one_token(alloc: Global, case: &mut Case, token: &[u8]) -> Result<bool, CaseFault> {
    let object = put_stamp(alloc, case, token, true, &[0, 2])?;
    let again = put_stamp(alloc, case, token, true, &[6])?;
    let none = put_stamp(alloc, case, token, true, &[7]);
    Ok(object == again && matches!(none, Err(CaseFault::NoObject)))
}

#[test]
fn objects_that_are_there(rt: HostRuntime) -> Result<(), Fail> {
    let mut scene = Scene::new(rt.alloc(), 0)?;
    let mut case = Case::new(scene.alloc, 2);
    let list = scene.world.crl(0, day(0), day(NOW), None)?;
    assert!(rt; is_one_list(&mut case, list.as_slice())?);
    let world = &mut scene.world;
    let certificate = world.certificate(0, 1, day(0), day(NOW), Role::Signer)?;
    assert!(rt; is_one_certificate(&mut case, certificate.as_slice())?);
    let token = scene.token(2, LATE, 20)?;
    assert!(rt; is_one_token(rt.alloc(), &mut case, token.as_slice())?);
    assert!(rt; case.pool().objects() == 7);
    Ok(())
}

fn is_object(case: &Case, object: ObjectId, number: u32) -> bool {
    number < case.pool().objects() && case.pool().object(number) == object
}

#[test]
fn the_first_objects(rt: HostRuntime) {
    let case = Case::new(rt.alloc(), 2);
    assert!(rt; case.pool().objects() == 3 && is_object(&case, case.value(), 2));
    assert!(rt; is_object(&case, case.reference(1), 0) && is_object(&case, case.reference(2), 1));
}
