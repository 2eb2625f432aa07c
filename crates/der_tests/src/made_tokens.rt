//! Tokens that the world made, altered in one place each, and the faults that are found.

ghost use Rattle.std.specs.Prelude.{◌≡◌, length};

use algorithms::{Digest, DigestKind, Hasher};
use sample_world::{Role, World, WorldFault};
use std::alloc::{AllocError, Global};
use std::test::Fail;
use tst_tokens::{TokenFault, check_token, read_token};
use x509_certs::read_certificate;
use xa_io::{Octets, Octs};

// The content octets of the OID of HSS signatures, and the tag and the first length octet of the value behind it.
const HSS_AND_VALUE: [u8; 13] = [
    0x2A, 0x86, 0x48, 0x86, 0xF7, 0x0D, 0x01, 0x09, 0x10, 0x03, 0x11, 0x04, 0x82,
];

// The Name `K0` of the issuer, and the serial number 3.
const ISSUER_AND_SERIAL: [u8; 18] = *b"0\x0D1\x0B0\x09\x06\x03U\x04\x03\x0C\x02K0\x02\x01\x03";

fn covered(message: &[u8]) -> Digest
    ensures { length result ≡ 32 }
{
    let mut hasher = Hasher::new(DigestKind::Sha256);
    hasher.put(message);
    hasher.finish()
}

// The place behind the first place where a part stands.
fn behind(octets: &[u8], part: &[u8]) -> usize {
    for at in 0..octets.len() {
        let rest = &octets[at..];
        if rest.starts_with(part) {
            return octets.len() - rest.len() + part.len();
        }
    }
    0
}

// The octets with the one so many before a place altered.
fn altered(
    alloc: Global,
    octets: &[u8],
    place: usize,
    back: usize,
    bits: u8,
) -> Result<Vec<u8>, AllocError> {
    let mut copy = Vec::from_slice(alloc, octets)?;
    for (i, octet) in copy.iter_mut().enumerate() {
        if i < place && place - i == back {
            *octet ^= bits;
        }
    }
    Ok(copy)
}

// What is found of octets that are a token over the SHA-256 of `abc`.
fn judged(alloc: Global, octets: &[u8]) -> Result<(), TokenFault> {
    match read_token(octets) {
        Ok(token) => check_token(alloc, &token, &covered(b"abc")),
        Err(fault) => Err(TokenFault::Shape { at: fault.at }),
    }
}

// A token over the SHA-256 of `abc` by key 2, with this certificate.
fn made(alloc: Global, world: &mut World, role: Role) -> Result<Octs, WorldFault> {
    let certificate = world.certificate(0, 2, 0, 4_102_444_800, role)?;
    let certificate = certificate.as_slice();
    match read_certificate(certificate) {
        Ok(_) => world.token(
            2,
            certificate,
            &covered(b"abc"),
            DigestKind::Sha256,
            2_000_000_000,
        ),
        Err(_) => Err(WorldFault::Spent),
    }
}

#[test]
fn sound_tokens(rt: HostRuntime) -> Result<(), Fail> {
    let alloc = rt.alloc();
    let mut world = World::new(alloc, 1);
    let token = made(alloc, &mut world, Role::Stamper)?;
    let token = token.as_slice();
    assert!(rt; matches!(judged(alloc, token), Ok(())));
    let shape = judged(alloc, &token[..token.len().saturating_sub(1)]);
    assert!(rt; matches!(shape, Err(TokenFault::Shape { at: 0 })));
    let Ok(read) = read_token(token) else {
        assert!(rt; false);
        return Ok(());
    };
    let other = check_token(alloc, &read, &covered(b"abd"));
    assert!(rt; matches!(other, Err(TokenFault::ImprintDiffers { .. })));
    let signer = made(alloc, &mut world, Role::Signer)?;
    let purpose = judged(alloc, signer.as_slice());
    assert!(rt; matches!(purpose, Err(TokenFault::Purpose)));
    Ok(())
}

#[test]
fn altered_tokens(rt: HostRuntime) -> Result<(), Fail> {
    let alloc = rt.alloc();
    let mut world = World::new(alloc, 1);
    let token = made(alloc, &mut world, Role::Stamper)?;
    let token = token.as_slice();
    let time = behind(token, &[0x18, 0x0F]);
    let content = altered(alloc, token, time, 3, 2)?;
    let found = judged(alloc, &content);
    assert!(rt; matches!(found, Err(TokenFault::ContentDigestDiffers { .. })));
    let named = behind(token, &ISSUER_AND_SERIAL);
    let name = altered(alloc, token, named, 1, 6)?;
    assert!(rt; matches!(judged(alloc, &name), Err(TokenFault::NoSigner)));
    let kind = altered(alloc, token, behind(token, &HSS_AND_VALUE), 3, 0x11 ^ 0x12)?;
    assert!(rt; matches!(judged(alloc, &kind), Err(TokenFault::UnknownKind)));
    let last = altered(alloc, token, token.len(), 1, 1)?;
    assert!(rt; matches!(judged(alloc, &last), Err(TokenFault::Fails)));
    Ok(())
}

#[test]
fn token_with_an_altered_certificate(rt: HostRuntime) -> Result<(), Fail> {
    let alloc = rt.alloc();
    let mut world = World::new(alloc, 1);
    let token = made(alloc, &mut world, Role::Stamper)?;
    let token = token.as_slice();
    let Ok(read) = read_token(token) else {
        assert!(rt; false);
        return Ok(());
    };
    let Some(signer) = read.signer() else {
        assert!(rt; false);
        return Ok(());
    };
    let certificate = altered(alloc, token, behind(token, signer.whole()), 1, 1)?;
    let found = judged(alloc, &certificate);
    assert!(rt; matches!(found, Err(TokenFault::CertHashDiffers { .. })));
    Ok(())
}
