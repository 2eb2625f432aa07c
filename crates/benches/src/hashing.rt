//! Signatures of no one that are verified many times, and bare hashes beside them.

use sha2::{Digest, Sha256};
use std::alloc::{AllocError, Global};

// Appends `count` values of 32 octets, value `i` made of the octet `step * i`.
fn put_values(out: &mut Vec<u8>, count: u16, step: u8) -> Result<(), AllocError> {
    let mut octet = 0u8;
    for _ in 0..count {
        out.extend_from_slice(&[octet; 32])?;
        octet = octet.wrapping_add(step);
    }
    Ok(())
}

// An HSS signature of one level, of zeros.
fn hss_signature(alloc: Global, tree: u8, one_time: u8) -> Result<Vec<u8>, AllocError> {
    let chains = match one_time {
        1 => 265,
        2 => 133,
        3 => 67,
        _ => 34,
    };
    let mut signature = Vec::new(alloc);
    signature.extend_from_slice(&[0, 0, 0, 0, 0, 0, 0, 0, 0, 0, 0, one_time])?;
    put_values(&mut signature, 1 + chains, 0)?;
    signature.extend_from_slice(&[0, 0, 0, tree])?;
    put_values(&mut signature, u16::from(tree.saturating_sub(4)) * 5, 0)?;
    Ok(signature)
}

/// How many of `count` messages an HSS signature of zeros leads to another root than zero.
pub fn verify_hss(alloc: Global, tree: u8, one_time: u8, count: u32) -> Result<u32, AllocError> {
    let mut key = [0u8; 60];
    key[3] = 1;
    key[7] = tree;
    key[11] = one_time;
    let signature = hss_signature(alloc, tree, one_time)?;
    let mut differ = 0u32;
    for number in 0..count {
        let verdict = lms_verify::verify(&key, &number.to_be_bytes(), &signature);
        if matches!(
            verdict,
            lms_verify::Verdict::Bad(lms_verify::Why::RootDiffers { .. })
        ) {
            differ = differ.saturating_add(1);
        }
    }
    Ok(differ)
}

/// The same of an XMSS signature.
pub fn verify_xmss(alloc: Global, set: u8, count: u32) -> Result<u32, AllocError> {
    let height = match set {
        1 => 10,
        2 => 16,
        _ => 20,
    };
    let mut key = [0u8; 68];
    key[3] = set;
    let mut signature = Vec::new(alloc);
    signature.extend_from_slice(&[0, 0, 0, 0])?;
    put_values(&mut signature, 68 + height, 0)?;
    let mut differ = 0u32;
    for number in 0..count {
        let verdict = xmss_verify::verify(&key, &number.to_be_bytes(), &signature);
        if matches!(
            verdict,
            xmss_verify::Verdict::Bad(xmss_verify::Why::RootDiffers { .. })
        ) {
            differ = differ.saturating_add(1);
        }
    }
    Ok(differ)
}

// An XMSS^MT key with one octet in all of its root, and one in all of its SEED.
fn many_trees_key(set: u8, root: u8, seed: u8) -> [u8; 68] {
    let mut key = [root; 68];
    key[..4].copy_from_slice(&[0, 0, 0, set]);
    key[36..].copy_from_slice(&[seed; 32]);
    key
}

// The octets of idx, the layers, and the values of one layer in a set of XMSS^MT (RFC 8391, section 5.4).
fn many_trees_shape(set: u8) -> (usize, u16, u16) {
    match set {
        1 => (3, 2, 77),
        2 => (3, 4, 72),
        3 => (5, 2, 87),
        4 => (5, 4, 77),
        5 => (5, 8, 72),
        6 => (8, 3, 87),
        7 => (8, 6, 77),
        _ => (8, 12, 72),
    }
}

// An XMSS^MT signature of this idx, whose values differ by a step.
fn many_trees_signature(alloc: Global, set: u8, idx: u64, step: u8) -> Result<Vec<u8>, AllocError> {
    let (octets, layers, values) = many_trees_shape(set);
    let mut signature = Vec::new(alloc);
    let idx = idx.to_be_bytes();
    signature.extend_from_slice(&idx[8usize.saturating_sub(octets)..])?;
    signature.extend_from_slice(&[step; 32])?;
    for _ in 0..layers {
        put_values(&mut signature, values, step)?;
    }
    Ok(signature)
}

/// How many of `count` messages an XMSS^MT signature of zeros leads to another root than zero.
pub fn verify_many_trees(alloc: Global, set: u8, count: u32) -> Result<u32, AllocError> {
    let key = many_trees_key(set, 0, 0);
    let signature = many_trees_signature(alloc, set, 0, 0)?;
    let mut differ = 0u32;
    for number in 0..count {
        let verdict = xmssmt_verify::verify(&key, &number.to_be_bytes(), &signature);
        if matches!(
            verdict,
            xmssmt_verify::Verdict::Bad(xmssmt_verify::Why::RootDiffers { .. })
        ) {
            differ = differ.saturating_add(1);
        }
    }
    Ok(differ)
}

/// The root, in hexadecimal, to which an XMSS^MT signature of this idx leads for `abc`, where its values, its randomizer and the key's SEED
/// are made by a step; empty where it leads to none.
pub fn root_of_many_trees(
    alloc: Global,
    set: u8,
    idx: u64,
    step: u8,
) -> Result<String, AllocError> {
    let key = many_trees_key(set, if step == 0 { 0 } else { 5 }, step);
    let signature = many_trees_signature(alloc, set, idx, step)?;
    match xmssmt_verify::verify(&key, b"abc", &signature) {
        xmssmt_verify::Verdict::Bad(xmssmt_verify::Why::RootDiffers { got, .. }) => {
            hex::encode(alloc, got)
        }
        _ => hex::encode(alloc, b""),
    }
}

/// The first octet after `count` hashes, each of one block.
pub fn hash_blocks(count: u32) -> u8 {
    let mut value = [0u8; 32];
    for _ in 0..count {
        value = Sha256::digest(&value);
    }
    value[0]
}
