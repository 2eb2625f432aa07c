//! A certificate, a CRL and a token that are signed by XMSS^MT.

ghost use Rattle.std.specs.Prelude.{◌<◌};

use crate::scene::{BEGIN, LATE, NOW, Scene, covered, day};
use algorithms::SignatureKind;
use sample_cases::{certificate_anew, list_anew, policy_of, put_list, token_anew};
use sample_world::Role;
use std::alloc::Global;
use std::test::Fail;
use tst_tokens::{check_token, read_token};
use xa_io::Octs;

// Policies that accept one kind alone.
const XMSS_MT: &str =
    "[[digest]]\nname = \"sha256\"\n[[kind]]\nname = \"xmssmt\"\nuri = [\"urn:sample:xmssmt\"]\n";

const HSS: &str =
    "[[digest]]\nname = \"sha256\"\n[[kind]]\nname = \"hss\"\nuri = [\"urn:sample:hss\"]\n";

const KIND: SignatureKind = SignatureKind::XmssMt;

// The certificate of a key of the world, by key 0.
fn certificate(scene: &mut Scene, subject: u32, role: Role) -> Result<Octs, Fail>
    requires { subject < 256 }
{
    let world = &mut scene.world;
    let made = world.certificate(0, subject, day(BEGIN), day(LATE), role)?;
    Ok(certificate_anew(scene.alloc, world, KIND, made.as_slice())?)
}

fn put_the_list(scene: &mut Scene) -> Result<(), Fail> {
    let made = scene.world.crl(0, day(0), day(NOW), None)?;
    let list = list_anew(scene.alloc, &mut scene.world, KIND, made.as_slice())?;
    put_list(&mut scene.case, list.as_slice())?;
    Ok(())
}

// A token of day 20 by key 1.
fn token(scene: &mut Scene) -> Result<Octs, Fail> {
    let certificate = certificate(scene, 1, Role::Stamper)?;
    let made = scene.token_with(1, certificate.as_slice(), 20, 0)?;
    Ok(token_anew(scene.alloc, &mut scene.world, KIND, made.as_slice())?)
}

fn is_sound(alloc: Global, token: &Octs) -> bool {
    match read_token(token.as_slice()) {
        Ok(token) => check_token(alloc, &token, &covered()).is_ok(),
        Err(_) => false,
    }
}

fn put_the_stamp(scene: &mut Scene) -> Result<(), Fail> {
    let token = token(scene)?;
    let sound = is_sound(scene.alloc, &token);
    scene.stamp(&token, sound, &[0])?;
    Ok(())
}

// Whether the earliest times are these days by a policy with these tables.
fn proves_by(scene: &mut Scene, anchor: &Octs, tables: &str, days: &[u16]) -> Result<bool, Fail> {
    scene.policy = policy_of(scene.alloc, 1, anchor.as_slice(), tables)?;
    scene.proves(days)
}

#[test]
fn objects_signed_by_many_trees(rt: HostRuntime) -> Result<(), Fail> {
    let mut scene = Scene::new(rt.alloc(), 0)?;
    let anchor = certificate(&mut scene, 0, Role::Authority)?;
    put_the_list(&mut scene)?;
    put_the_stamp(&mut scene)?;
    assert!(rt; proves_by(&mut scene, &anchor, XMSS_MT, &[20, NOW, NOW, NOW, NOW])?);
    assert!(rt; proves_by(&mut scene, &anchor, HSS, &[NOW; 5])?);
    Ok(())
}
