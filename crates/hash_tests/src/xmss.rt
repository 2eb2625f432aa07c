//! Signatures of no one: the roots to which they lead.

use std::alloc::{AllocError, Global};
use std::test::Fail;
use xmss_verify::{Verdict, Why, verify};

// A signature that is no one's, and the root, in hexadecimal, to which it leads for `abc`. The
// roots are from a program written from RFC 8391 alone.
#[derive(Clone, Copy)]
struct Case {
    set: u8,
    height: u16,
    idx: u32,
    step: u8,
    root: &'static str,
}

const CASES: [Case; 6] = [
    Case {
        set: 1,
        height: 10,
        idx: 0,
        step: 0,
        root: "1a91ddd9d29532e4d3bbace90f03f8396af187296d0837cd7276e53f668e2f96",
    },
    Case {
        set: 2,
        height: 16,
        idx: 0,
        step: 0,
        root: "29dcd662c2a3701a91591d9b5124d5895560c9c78098bc410efa344e17619de1",
    },
    Case {
        set: 3,
        height: 20,
        idx: 0,
        step: 0,
        root: "0326266bf0fb4db16e8f04fec51055897cd00ddf48fb37278ad81f18ae013f9f",
    },
    Case {
        set: 1,
        height: 10,
        idx: 682,
        step: 3,
        root: "3279def77116bdd7850000911111a82cafaa2c93bbfbc78da3f095163b94fb7e",
    },
    Case {
        set: 2,
        height: 16,
        idx: 65535,
        step: 3,
        root: "2e7cb6bd2f192c7119153db89a4d51bfaa8bf0c03fc84fd6603075a9855e1422",
    },
    Case {
        set: 3,
        height: 20,
        idx: 349525,
        step: 3,
        root: "13dc35bf3ac49040218d1260f023b17115125cf59c52f0fd981a76f3f54dd0b2",
    },
];

// A key with one octet in all of its root, and one in all of its SEED.
fn key(set: u8, root: u8, seed: u8) -> [u8; 68] {
    let mut key = [root; 68];
    key[0] = 0;
    key[1] = 0;
    key[2] = 0;
    key[3] = set;
    for i in 36..68 {
        key[i] = seed;
    }
    key
}

// Appends `count` values of 32 octets, value `i` made of the octet `step * i`.
fn put_values(out: &mut Vec<u8>, count: u16, step: u8) -> Result<(), AllocError> {
    let mut octet = 0u8;
    for _ in 0..count {
        out.extend_from_slice(&[octet; 32])?;
        octet = octet.wrapping_add(step);
    }
    Ok(())
}

fn signature(alloc: Global, case: Case) -> Result<Vec<u8>, AllocError> {
    let mut out = Vec::new(alloc);
    out.extend_from_slice(&case.idx.to_be_bytes())?;
    out.extend_from_slice(&[case.step; 32])?;
    put_values(&mut out, 67, case.step)?;
    put_values(&mut out, case.height, case.step)?;
    Ok(out)
}

// Whether a case leads to its root, and is none where it is cut by one octet.
fn leads_to_its_root(alloc: Global, case: Case) -> Result<bool, Fail> {
    let root = if case.step == 0 { 0 } else { 5 };
    let key = key(case.set, root, case.step);
    let signature = signature(alloc, case)?;
    let cut = match signature.as_slice() {
        [rest @ .., _] => verify(&key, b"abc", rest),
        [] => Verdict::Good,
    };
    let Verdict::Bad(Why::RootDiffers { got, want }) = verify(&key, b"abc", &signature) else {
        return Ok(false);
    };
    let text = hex::encode(alloc, got)?;
    let shape = matches!(cut, Verdict::Bad(Why::SignatureShape));
    Ok(shape && want == [root; 32] && text.as_str() == case.root)
}

#[test]
fn all_three_sets(rt: HostRuntime) -> Result<(), Fail> {
    for case in CASES {
        assert!(rt; leads_to_its_root(rt.alloc(), case)?);
    }
    Ok(())
}

fn is_unknown(set: u8) -> bool {
    matches!(
        verify(&key(set, 0, 0), b"abc", b""),
        Verdict::Bad(Why::UnknownSet)
    )
}

#[test]
fn other_keys(rt: HostRuntime) {
    let short = matches!(verify(&[0; 67], b"abc", b""), Verdict::Bad(Why::KeyShape));
    assert!(rt; is_unknown(0) && is_unknown(4) && short);
}
