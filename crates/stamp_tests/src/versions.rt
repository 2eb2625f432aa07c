//! What a stamp proves by the version of the policy: its time, or its time and its accuracy.

ghost use Rattle.std.specs.Prelude.{◌<◌, ◌^◌};

use crate::scene::{BEGIN, LATE, NOW, Scene, day};
use algorithms::DigestKind;
use sample_cases::{earliest_times, policy_of};
use sample_world::Role;
use std::alloc::Global;
use std::test::Fail;

// SHA-384 is accepted before the third second of day 20.
const TABLES: &str =
    "[[digest]]\nname = \"sha256\"\n[[digest]]\nname = \"sha384\"\nuntil = \"2030-01-21T00:00:02Z\"\n[[kind]]\nname = \"hss\"\nuri = [\"urn:sample:hss\"]\n";

// A scene by a policy of this version, with a stamp of day 20 and of this accuracy over the Reference.
fn scene_of(alloc: Global, version: u32, accuracy: u32) -> Result<Scene, Fail>
    requires { accuracy < 2 ^ 31 }
{
    let mut scene = Scene::new(alloc, 0)?;
    let world = &mut scene.world;
    let anchor = world.certificate(0, 0, day(0), day(LATE), Role::Authority)?;
    scene.policy = policy_of(alloc, version, anchor.as_slice(), TABLES)?;
    let world = &mut scene.world;
    let certificate = world.certificate(0, 1, day(BEGIN), day(LATE), Role::Stamper)?;
    let token = scene.token_with(1, certificate.as_slice(), 20, accuracy)?;
    scene.list(NOW, None)?;
    scene.stamp(&token, true, &[0])?;
    Ok(scene)
}

// Whether the Reference is proved at so many seconds of day 20, and SHA-384 is accepted then or not.
fn proves_after(scene: &Scene, seconds: u8, accepted: bool) -> Result<bool, Fail> {
    let times = earliest_times(scene.alloc, &scene.case, &scene.policy, day(NOW))?;
    let want = day(20) + i64::from(seconds);
    Ok(
        times.as_slice().first() == Some(&want)
            && scene.policy.digest_accepted(DigestKind::Sha384, want) == accepted,
    )
}

#[test]
fn version_1_proves_the_time(rt: HostRuntime) -> Result<(), Fail> {
    let scene = scene_of(rt.alloc(), 1, 3)?;
    assert!(rt; proves_after(&scene, 0, true)?);
    Ok(())
}

#[test]
fn version_2_proves_the_time_and_its_accuracy(rt: HostRuntime) -> Result<(), Fail> {
    let exact = scene_of(rt.alloc(), 2, 0)?;
    assert!(rt; proves_after(&exact, 0, true)?);
    let within = scene_of(rt.alloc(), 2, 3)?;
    assert!(rt; proves_after(&within, 3, false)?);
    Ok(())
}
