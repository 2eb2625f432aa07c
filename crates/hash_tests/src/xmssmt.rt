//! Signatures of no one: the roots to which they lead. The roots are from a program written from RFC 8391 alone. The largest set
//! is left to a program outside the tests.

use std::alloc::{AllocError, Global};
use std::test::Fail;
use xmssmt_verify::{Verdict, Why, verify};

// A set by its number, the octets of its idx, its layers and the values of one, an idx, how the values differ, and the root, in
// hexadecimal, to which the signature leads for `abc`.
#[derive(Clone, Copy)]
struct Case {
    set: u8,
    octets: usize,
    layers: u16,
    values: u16,
    idx: u64,
    step: u8,
    root: &'static str,
}

const CASES: [Case; 9] = [
    Case {
        set: 1,
        octets: 3,
        layers: 2,
        values: 77,
        idx: 0,
        step: 0,
        root: "c3f478de6c2f2f382a96ded63e5e1c510c11032f89b5d1ea8ce433f2152bbf0e",
    },
    Case {
        set: 1,
        octets: 3,
        layers: 2,
        values: 77,
        idx: 1048575,
        step: 3,
        root: "7f730422ca2322332245fc4a7f1515d997c45700f95bd61112d2839151ac848c",
    },
    Case {
        set: 2,
        octets: 3,
        layers: 4,
        values: 72,
        idx: 0,
        step: 0,
        root: "a253001ff678ba66c5a3837e9e7b3e70f3c43e9aa8b187d89382f1bf2a55c2ac",
    },
    Case {
        set: 2,
        octets: 3,
        layers: 4,
        values: 72,
        idx: 699050,
        step: 3,
        root: "c4dc424390afa82f83e58ae80a6a121df6345e70234a63fe851ee0256f8c782b",
    },
    Case {
        set: 3,
        octets: 5,
        layers: 2,
        values: 87,
        idx: 1099511627775,
        step: 3,
        root: "7f934ea51171cf399491fa610fdb09382c7b04dc4e0f7b1a217af8e12511825c",
    },
    Case {
        set: 4,
        octets: 5,
        layers: 4,
        values: 77,
        idx: 733007751850,
        step: 3,
        root: "674662ad387eaafd8ddaaa319d69de9b4cadf51fe330dc3e4c537e3154afc812",
    },
    Case {
        set: 5,
        octets: 5,
        layers: 8,
        values: 72,
        idx: 78187493530,
        step: 3,
        root: "7cf146ed2161175812a422ee9868461223e361461a7665a8eff3a57f66e3d440",
    },
    Case {
        set: 6,
        octets: 8,
        layers: 3,
        values: 87,
        idx: 1152921504606846975,
        step: 3,
        root: "c6d16045e2ceabb50cde8d3cd95ada91a85eb00ff77c586446fc0e2e1ce838c4",
    },
    Case {
        set: 7,
        octets: 8,
        layers: 6,
        values: 77,
        idx: 768614336404564650,
        step: 3,
        root: "9a58bd3962837b7246e5907a379761a0565879ba241c9fefa0d3587c675573db",
    },
];

// A key with one octet in all of its root, and one in all of its SEED.
fn key(set: u8, root: u8, seed: u8) -> [u8; 68] {
    let mut key = [root; 68];
    key[0] = 0;
    key[1] = 0;
    key[2] = 0;
    key[3] = set;
    for i in 36..68 {
        key[i] = seed;
    }
    key
}

// Appends `count` values of 32 octets, value `i` made of the octet `step * i`.
fn put_values(out: &mut Vec<u8>, count: u16, step: u8) -> Result<(), AllocError> {
    let mut octet = 0u8;
    for _ in 0..count {
        out.extend_from_slice(&[octet; 32])?;
        octet = octet.wrapping_add(step);
    }
    Ok(())
}

fn signature(alloc: Global, case: Case) -> Result<Vec<u8>, AllocError> {
    let mut out = Vec::new(alloc);
    for (place, octet) in case.idx.to_be_bytes().iter().enumerate() {
        if place >= 8usize.saturating_sub(case.octets) {
            out.push(*octet)?;
        }
    }
    out.extend_from_slice(&[case.step; 32])?;
    for _ in 0..case.layers {
        put_values(&mut out, case.values, case.step)?;
    }
    Ok(out)
}

// Whether a case leads to its root, and is none where it is cut by one octet.
fn leads_to_its_root(alloc: Global, case: Case) -> Result<bool, Fail> {
    let root = if case.step == 0 { 0 } else { 5 };
    let key = key(case.set, root, case.step);
    let signature = signature(alloc, case)?;
    let cut = match signature.as_slice() {
        [rest @ .., _] => verify(&key, b"abc", rest),
        [] => Verdict::Good,
    };
    let Verdict::Bad(Why::RootDiffers { got, want }) = verify(&key, b"abc", &signature) else {
        return Ok(false);
    };
    let text = hex::encode(alloc, got)?;
    let shape = matches!(cut, Verdict::Bad(Why::SignatureShape));
    Ok(shape && want == [root; 32] && text.as_str() == case.root)
}

#[test]
fn seven_sets(rt: HostRuntime) -> Result<(), Fail> {
    for case in CASES {
        assert!(rt; leads_to_its_root(rt.alloc(), case)?);
    }
    Ok(())
}

fn is_unknown(set: u8) -> bool {
    matches!(
        verify(&key(set, 0, 0), b"abc", b""),
        Verdict::Bad(Why::UnknownSet)
    )
}

#[test]
fn other_keys(rt: HostRuntime) {
    let short = matches!(verify(&[0; 67], b"abc", b""), Verdict::Bad(Why::KeyShape));
    assert!(rt; is_unknown(0) && is_unknown(9) && short);
}
