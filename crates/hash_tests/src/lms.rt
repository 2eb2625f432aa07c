//! Signatures of no one: the roots to which they lead.

use lms_verify::{Verdict, Why, verify};
use std::alloc::{AllocError, Global};
use std::test::Fail;

const CHAINS: [u16; 4] = [265, 133, 67, 34];

const HEIGHTS: [u16; 5] = [5, 10, 15, 20, 25];

// The roots, in hexadecimal, that signatures of zeros give for `abc`: a row for each LM-OTS type,
// a column for each LMS type. They are from a program written from RFC 8554 alone, which makes the
// public keys of the RFC's Appendix F from their seeds.
const ROOTS: [[&str; 5]; 4] = [
    [
        "e8be62ec62fd2f734b083c1c9fc21afd61f5e6140b4f23a207a431903034cbd9",
        "d4721455865b7b1b775059300df8359a3ef893962c7c01224f095fedbaef3d4a",
        "79e317dafd18ea5a10744b7de36028012dc7c9abcecbee28f1049b4f7998a738",
        "fe617f5739f309570d3d4c8b6a6340a9bf858552828643cca0171be18cd92f27",
        "6be3006d2cb4a00908bc36d907c55e93502f59f8fcbc561a3cecc7347b140a23",
    ],
    [
        "4798274fb31139e9f9a63e4fa37fe46e5ce375bc8e47b011df9898d3c1ef0f24",
        "7ac874de1b7c8707f3cef3ce2bbb88f8ee206738de4e5635a136c8f908978b24",
        "e5b3076ea0d4024c715f4ff1dd06c28c0a0428e27245d28c83bf294a73f91c9c",
        "6ef15a4d1bd79c26b740c89bf6857990474cd133ac21454d0d43bd52e2b479f9",
        "29d0dc2be3409ed2df8b8719aa92fbe33d7c877acdf9e7f218fd10659692915d",
    ],
    [
        "0f4e4ad5160a98e24601f2e029388ca7254fe608f3b19d7f561bf18f7a10a6c3",
        "e49cde2831e683e3316239580f3a0f4fee3cdff2f5d20e651b97ece6e0659ed4",
        "5834d653fd530c1bcfdb7c89ba67f36b399d032683ad36498f1b17a0cd235863",
        "6c257ba57d2272e74646022fe80543350154049f6f14f72a794e426b7c777c48",
        "7c65a72de0e265d5cada7c092bcdd97f294407bfb66d506b260b075f5542bdb9",
    ],
    [
        "5163de0884bc87c904d5f66b4ed157882ab470c56b0267c6e69e227ff1149ed2",
        "44b64d6b9f0c5d5d7ea5fbd79c178760949713ea9ef4b8147dc876a15de1df82",
        "5dcf57cfa7a69b57f2ee64154381df9caccee1abc76a2b551ae8f48113526f6a",
        "61530c1a2a068e4aebb81b462a815132403ea8f6a8bffa4b16c3521f41c8a0eb",
        "1e01ac9547cc639eeb84623f5b8a2a5ef18ff7825164ceaf5398922b684d5594",
    ],
];

// A pair of types.
#[derive(Clone, Copy)]
struct Set {
    tree: u8,
    one_time: u8,
    chains: u16,
    height: u16,
}

// A key with L = 1, each octet of its I alike, and a zero root.
fn key(set: Set, id: u8) -> [u8; 60] {
    let mut key = [0u8; 60];
    key[3] = 1;
    key[7] = set.tree;
    key[11] = set.one_time;
    for i in 12..28 {
        key[i] = id;
    }
    key
}

// Appends `count` values of 32 octets, value `i` made of the octet `step * i`.
fn put_values(out: &mut Vec<u8>, count: u16, step: u8) -> Result<(), AllocError> {
    let mut octet = 0u8;
    for _ in 0..count {
        out.extend_from_slice(&[octet; 32])?;
        octet = octet.wrapping_add(step);
    }
    Ok(())
}

// A signature of one level that is no one's.
fn signature(alloc: Global, set: Set, q: u32, step: u8) -> Result<Vec<u8>, AllocError> {
    let mut out = Vec::new(alloc);
    out.extend_from_slice(&[0, 0, 0, 0])?;
    out.extend_from_slice(&q.to_be_bytes())?;
    out.extend_from_slice(&[0, 0, 0, set.one_time])?;
    out.extend_from_slice(&[step; 32])?;
    put_values(&mut out, set.chains, step)?;
    out.extend_from_slice(&[0, 0, 0, set.tree])?;
    put_values(&mut out, set.height, step)?;
    Ok(out)
}

// Whether a verdict says that the roots differ, and by these in hexadecimal.
fn differ(alloc: Global, verdict: Verdict, root: &str, wanted: u8) -> Result<bool, Fail> {
    let Verdict::Bad(Why::RootDiffers { got, want }) = verdict else {
        return Ok(false);
    };
    let text = hex::encode(alloc, got)?;
    Ok(text.as_str() == root && want == [wanted; 32])
}

// Whether the signature of zeros under a zero key leads to this root, and is none where it is cut by one octet.
fn leads_to(alloc: Global, set: Set, root: &str) -> Result<bool, Fail> {
    let key = key(set, 0);
    let signature = signature(alloc, set, 0, 0)?;
    let cut = match signature.as_slice() {
        [rest @ .., _] => verify(&key, b"abc", rest),
        [] => Verdict::Good,
    };
    let shape = matches!(cut, Verdict::Bad(Why::SignatureShape));
    Ok(shape && differ(alloc, verify(&key, b"abc", &signature), root, 0)?)
}

#[test]
fn all_twenty_combinations(rt: HostRuntime) -> Result<(), Fail> {
    for o in 0..4usize {
        for t in 0..5usize {
            let set = Set {
                tree: t as u8 + 5,
                one_time: o as u8 + 1,
                chains: CHAINS[o],
                height: HEIGHTS[t],
            };
            assert!(rt; leads_to(rt.alloc(), set, ROOTS[o][t])?);
        }
    }
    Ok(())
}

// Whether a signature of values that differ from one another, by leaf `q`, leads to this root.
fn other_leaf(alloc: Global, place: usize, q: u32, root: &str) -> Result<bool, Fail> {
    if place >= 4 {
        return Ok(false);
    }
    let set = Set {
        tree: place as u8 + 5,
        one_time: place as u8 + 1,
        chains: CHAINS[place],
        height: HEIGHTS[place],
    };
    let signature = signature(alloc, set, q, 3)?;
    differ(alloc, verify(&key(set, 3), b"abc", &signature), root, 0)
}

// Leaves with odd nodes on their way.
#[test]
fn other_leaves(rt: HostRuntime) -> Result<(), Fail> {
    let cases = [
        (
            0,
            21,
            "710093c850c69d09e738176a3d7f4f851edda863c7be35e482a6b26f9a88596b",
        ),
        (
            1,
            682,
            "6b8e4078d9915ce06929a936d9a8c17d7368863a742c37eb0654258667d379c5",
        ),
        (
            2,
            21845,
            "f69fd403f896b86ac3025ece5a27f7fd38ed5eca1ce5729eb8a99e6ef92b19c3",
        ),
    ];
    for (place, q, root) in cases {
        assert!(rt; other_leaf(rt.alloc(), place, q, root)?);
    }
    Ok(())
}
