//! The digests of FIPS 180-4's examples, and the names of the kinds.

use algorithms::{DigestKind, Hasher, SignatureKind, verify};
use std::alloc::Global;
use std::test::Fail;
use xa_io::Octets;

// The digests of `abc`, from FIPS 180-4's examples.
const ABC: [(DigestKind, &str); 3] = [
    (
        DigestKind::Sha256,
        "ba7816bf8f01cfea414140de5dae2223b00361a396177a9cb410ff61f20015ad",
    ),
    (
        DigestKind::Sha384,
        "cb00753f45a35e8bb5a03d699ac65007272c32ab0eded1631a8b605a43ff5bed8086072ba1e7cc2358baeca134c825a7",
    ),
    (
        DigestKind::Sha512,
        "ddaf35a193617abacc417349ae20413112e6fa4e89a97ea20a9eeee64b55d39a2192992a274fc1a836ba3c23a3feebbd454d4423643ce80e2a9ac94fa54ca49f",
    ),
];

// Whether a digest of pieces is this one in hexadecimal.
fn has_digest(
    alloc: Global,
    kind: DigestKind,
    pieces: &[&[u8]; 3],
    want: &str,
) -> Result<bool, Fail> {
    let mut hasher = Hasher::new(kind);
    for piece in pieces {
        hasher.put(piece);
    }
    let digest = hasher.finish();
    let text = hex::encode(alloc, digest.as_slice())?;
    Ok(text.as_str() == want)
}

#[test]
fn digests_of_abc(rt: HostRuntime) -> Result<(), Fail> {
    let cuts: [[&[u8]; 3]; 4] = [
        [b"abc", b"", b""],
        [b"", b"ab", b"c"],
        [b"a", b"b", b"c"],
        [b"a", b"", b"bc"],
    ];
    for (kind, want) in ABC {
        for pieces in &cuts {
            assert!(rt; has_digest(rt.alloc(), kind, pieces, want)?);
        }
        assert!(rt;
            DigestKind::of_oid(kind.oid()) == Some(kind) && kind.uri().ends_with(kind.word())
        );
    }
    Ok(())
}

// Whether a kind has this word and OID, is found by it, and holds for no empty key.
fn is_named(kind: SignatureKind, word: &str, oid: &[u8]) -> bool {
    kind.word() == word
        && kind.oid() == oid
        && SignatureKind::of_oid(oid) == Some(kind)
        && !verify(kind, b"", b"abc", b"")
}

#[test]
fn kinds_of_signatures(rt: HostRuntime) {
    let hss = b"\x2A\x86\x48\x86\xF7\x0D\x01\x09\x10\x03\x11";
    assert!(rt; is_named(SignatureKind::Hss, "hss", hss));
    assert!(rt;
        is_named(
            SignatureKind::Xmss,
            "xmss",
            b"\x2B\x06\x01\x05\x05\x07\x06\x22"
        )
    );
    assert!(rt;
        is_named(
            SignatureKind::XmssMt,
            "xmssmt",
            b"\x2B\x06\x01\x05\x05\x07\x06\x23"
        )
    );
    assert!(rt; SignatureKind::of_oid(b"\x2A").is_none());
}
