//! The signatures of the made-up world. The keys and the hashes are from programs written from the RFCs alone.

use lms_verify::{Verdict, Why, verify};
use sample_world::{World, WorldFault};
use sha2::{Digest, Sha256};
use std::alloc::{AllocError, Global};
use std::test::Fail;

// Whether octets have this SHA-256 in hexadecimal.
fn has_hash(alloc: Global, octets: &[u8], want: &str) -> Result<bool, AllocError> {
    let text = hex::encode(alloc, Sha256::digest(octets))?;
    Ok(text.as_str() == want)
}

// The octets with some bits of one of them turned.
fn turned(alloc: Global, octets: &[u8], place: usize, bits: u8) -> Result<Vec<u8>, AllocError> {
    let mut copy = Vec::from_slice(alloc, octets)?;
    for (i, octet) in copy.iter_mut().enumerate() {
        if i == place {
            *octet ^= bits;
        }
    }
    Ok(copy)
}

// The octets without the last.
fn cut(octets: &[u8]) -> &[u8] {
    match octets {
        [rest @ .., _] => rest,
        [] => octets,
    }
}

const KEY: &str = "0000000100000005000000044aeb4dc2212fec1d5f22882312111fdb\
    54f6d14206cfa62f590d7d2fcf7802f918189fed3bdd2b270badd20826e89e73";

fn is_good(key: &[u8], signature: &[u8]) -> bool {
    matches!(verify(key, b"abc", signature), Verdict::Good)
}

fn is_no_signature(key: &[u8], signature: &[u8]) -> bool {
    let verdict = verify(key, b"abc", signature);
    matches!(verdict, Verdict::Bad(Why::SignatureShape))
}

// Whether a key of another LMS type has no such signature, a key of no known type is unknown, and a signature altered at its end
// leads to another root.
fn altered_ones_are_told(alloc: Global, key: &[u8], signature: &[u8]) -> Result<bool, AllocError> {
    let other = turned(alloc, key, 7, 5 ^ 6)?;
    let unknown = turned(alloc, key, 7, 5 ^ 4)?;
    let last = turned(alloc, signature, 1295, 1)?;
    let unknown = verify(&unknown, b"abc", signature);
    let last = verify(key, b"abc", &last);
    Ok(
        is_no_signature(&other, signature)
            && matches!(unknown, Verdict::Bad(Why::UnknownSet))
            && matches!(last, Verdict::Bad(Why::RootDiffers { .. })),
    )
}

#[test]
fn one_level(rt: HostRuntime) -> Result<(), Fail> {
    let alloc = rt.alloc();
    let mut world = World::new(alloc, 1);
    let key = world.key(0)?;
    let key = key.as_slice();
    let signature = world.sign(0, b"abc")?;
    let signature = signature.as_slice();
    let hash = "f473af3ad3d242ca605c4beabf098440c40dadbbb53968e7c6cf3fb52b725483";
    assert!(rt; has_hash(alloc, signature, hash)? && is_good(key, signature));
    assert!(rt; signature.len() == 1296 && is_no_signature(key, cut(signature)));
    assert!(rt; altered_ones_are_told(alloc, key, signature)?);
    Ok(())
}

#[test]
fn two_levels(rt: HostRuntime) -> Result<(), Fail> {
    let alloc = rt.alloc();
    let mut world = World::new(alloc, 1);
    let _first = world.sign(0, b"abc")?;
    let key = world.key(0)?;
    let text = hex::encode(alloc, key.as_slice())?;
    assert!(rt; text.as_str() == KEY);
    let key = turned(alloc, key.as_slice(), 3, 1 ^ 2)?;
    let signature = world.sign_two(0, 1, b"abc")?;
    let signature = signature.as_slice();
    let hash = "91da0531f0161d4d689daa65fb2c2eb4d073374cd48d3696a22fc0b57d3a7744";
    assert!(rt; signature.len() == 2644 && has_hash(alloc, signature, hash)?);
    assert!(rt; is_good(&key, signature));
    Ok(())
}

#[test]
fn spent_keys(rt: HostRuntime) -> Result<(), Fail> {
    let mut world = World::new(rt.alloc(), 1);
    for _ in 0..32 {
        let _signature = world.sign(0, b"abc")?;
    }
    let one = matches!(world.sign(0, b"abc"), Err(WorldFault::Spent));
    let two = matches!(world.sign_two(1, 0, b"abc"), Err(WorldFault::Spent));
    let signature = world.sign(1, b"abc")?;
    assert!(rt; one && two && signature.as_slice().starts_with(&[0; 8]));
    Ok(())
}

fn xmss_shape(key: &[u8], signature: &[u8]) -> bool {
    let verdict = xmss_verify::verify(key, b"abc", signature);
    matches!(
        verdict,
        xmss_verify::Verdict::Bad(xmss_verify::Why::SignatureShape)
    )
}

// Whether a signature cut by an octet and one of idx 1,024 are none, and one of another idx leads to another root.
fn xmss_altered(alloc: Global, key: &[u8], signature: &[u8]) -> Result<bool, AllocError> {
    let past = turned(alloc, signature, 2, 4)?;
    let raised = turned(alloc, signature, 3, 1)?;
    let raised = xmss_verify::verify(key, b"abc", &raised);
    let differs = matches!(
        raised,
        xmss_verify::Verdict::Bad(xmss_verify::Why::RootDiffers { .. })
    );
    Ok(differs && xmss_shape(key, cut(signature)) && xmss_shape(key, &past))
}

// The tree of the XMSS key is made once.
#[test]
fn xmss_signatures(rt: HostRuntime) -> Result<(), Fail> {
    let alloc = rt.alloc();
    let mut world = World::new(alloc, 1);
    let key = world.xmss_key()?;
    let key = key.as_slice();
    let first = world.xmss_sign(b"abc")?;
    let first = first.as_slice();
    let hash = "090ba486bdcdbaa310d65811ea685756bf6ac22cbc904b322ba5cf32143c7ed1";
    assert!(rt; first.len() == 2500 && has_hash(alloc, first, hash)?);
    let verdict = xmss_verify::verify(key, b"abc", first);
    assert!(rt; matches!(verdict, xmss_verify::Verdict::Good));
    assert!(rt; xmss_altered(alloc, key, first)?);
    let second = world.xmss_sign(b"abc")?;
    let hash = "a52759e5089af62ef8b4337e447e1019945f2471187de1f3e4ff37ccc66db103";
    assert!(rt; has_hash(alloc, second.as_slice(), hash)?);
    Ok(())
}

fn mt_is_good(key: &[u8], signature: &[u8]) -> bool {
    let verdict = xmssmt_verify::verify(key, b"abc", signature);
    signature.len() == 9251 && matches!(verdict, xmssmt_verify::Verdict::Good)
}

fn mt_shape(key: &[u8], signature: &[u8]) -> bool {
    let verdict = xmssmt_verify::verify(key, b"abc", signature);
    matches!(
        verdict,
        xmssmt_verify::Verdict::Bad(xmssmt_verify::Why::SignatureShape)
    )
}

// The root to which the first signature leads where its idx is raised by one.
const RAISED: &str = "996a0bde1037ee8d3122e4dc73d760d49d90bd73466a8386828798a418499b81";

fn mt_raised(alloc: Global, key: &[u8], signature: &[u8]) -> Result<bool, AllocError> {
    let raised = turned(alloc, signature, 2, 1)?;
    let verdict = xmssmt_verify::verify(key, b"abc", &raised);
    let xmssmt_verify::Verdict::Bad(xmssmt_verify::Why::RootDiffers { got, .. }) = verdict else {
        return Ok(false);
    };
    let text = hex::encode(alloc, got)?;
    Ok(text.as_str() == RAISED)
}

// Whether a signature cut by an octet and one of idx 1,048,576 are none, and set 9 is unknown.
fn mt_altered(alloc: Global, key: &[u8], signature: &[u8]) -> Result<bool, AllocError> {
    let past = turned(alloc, signature, 0, 0x10)?;
    let ninth = turned(alloc, key, 3, 2 ^ 9)?;
    let ninth = xmssmt_verify::verify(&ninth, b"abc", signature);
    let unknown = matches!(
        ninth,
        xmssmt_verify::Verdict::Bad(xmssmt_verify::Why::UnknownSet)
    );
    Ok(unknown && mt_shape(key, cut(signature)) && mt_shape(key, &past))
}

#[test]
fn the_first_signature_of_many_trees(rt: HostRuntime) -> Result<(), Fail> {
    let alloc = rt.alloc();
    let mut world = World::new(alloc, 1);
    let key = world.xmssmt_key()?;
    let key = key.as_slice();
    let first = world.xmssmt_sign(b"abc")?;
    let first = first.as_slice();
    let hash = "b63e66e1c2d6aa3f0498b3a5a5fdbca1fdf650d52a00c7354f154071f39a1b74";
    assert!(rt; mt_is_good(key, first) && has_hash(alloc, first, hash)?);
    assert!(rt; mt_raised(alloc, key, first)? && mt_altered(alloc, key, first)?);
    Ok(())
}

// The thirty-third signature is the first by the second tree of the lowest layer.
#[test]
fn the_first_signature_of_the_second_tree(rt: HostRuntime) -> Result<(), Fail> {
    let alloc = rt.alloc();
    let mut world = World::new(alloc, 1);
    let key = world.xmssmt_key()?;
    for _ in 0..32 {
        let _signature = world.xmssmt_sign(b"abc")?;
    }
    let signature = world.xmssmt_sign(b"abc")?;
    let signature = signature.as_slice();
    let hash = "cf4ab469cd4977deed64ced74c84ccf4ce0b04a2a078f352da7a9077d0f4c5f8";
    assert!(rt; mt_is_good(key.as_slice(), signature) && has_hash(alloc, signature, hash)?);
    Ok(())
}
