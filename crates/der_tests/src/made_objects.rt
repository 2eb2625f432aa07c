//! Certificates, CRLs and tokens that the made-up world made.

ghost use Rattle.std.specs.Prelude.{◌≡◌, length};

use algorithms::{Digest, DigestKind, Hasher};
use lms_verify::{Verdict, verify};
use sample_world::{Role, World};
use std::test::Fail;
use tst_tokens::{Token, read_token};
use x509_certs::{Certificate, Crl, read_certificate, read_crl};
use xa_io::Octets;

const ROOT: [u8; 15] = *b"0\x0D1\x0B0\x09\x06\x03U\x04\x03\x0C\x02K0";

const KEY_127: [u8; 17] = *b"0\x0F1\x0D0\x0B\x06\x03U\x04\x03\x0C\x04K127";

// 2049-12-31T23:59:59Z
const BEFORE_2050: i64 = 2_524_607_999;

// The serial is the number of the key and 1, in the fewest octets of which the first is below 128.
fn has_names(c: &Certificate<'_>) -> bool {
    c.serial() == [0, 128].as_slice()
        && c.issuer() == ROOT.as_slice()
        && c.subject() == KEY_127.as_slice()
}

fn has_times(c: &Certificate<'_>, begin: i64, end: i64) -> bool {
    c.not_before() == begin && c.not_after() == end
}

fn is_authority(c: &Certificate<'_>) -> bool {
    c.is_ca() && c.signs_certs() && c.signs_crls() && !c.stamps_time() && !c.strange()
}

#[test]
fn authorities(rt: HostRuntime) -> Result<(), Fail> {
    let mut world = World::new(rt.alloc(), 1);
    let made = world.certificate(0, 127, -631_152_000, BEFORE_2050, Role::Authority)?;
    let key = world.key(127)?;
    let issuer = world.key(0)?;
    let Ok(read) = read_certificate(made.as_slice()) else {
        return Err(Fail::new("no certificate"));
    };
    assert!(rt; has_names(&read) && has_times(&read, -631_152_000, BEFORE_2050));
    assert!(rt; is_authority(&read) && read.key() == key.as_slice());
    assert!(rt; verify(issuer.as_slice(), read.tbs(), read.signature()) == Verdict::Good);
    Ok(())
}

fn is_stamper(c: &Certificate<'_>) -> bool {
    c.serial() == [2].as_slice() && c.stamps_time() && !c.is_ca()
}

#[test]
fn stampers(rt: HostRuntime) -> Result<(), Fail> {
    let mut world = World::new(rt.alloc(), 1);
    let made = world.certificate(0, 1, BEFORE_2050, BEFORE_2050 + 1, Role::Stamper)?;
    let Ok(read) = read_certificate(made.as_slice()) else {
        return Err(Fail::new("no certificate"));
    };
    assert!(rt; is_stamper(&read) && has_times(&read, BEFORE_2050, BEFORE_2050 + 1));
    Ok(())
}

fn has_updates(c: &Crl<'_>) -> bool {
    c.this_update() == 1_893_456_000 && c.next_update() == Some(4_102_444_800) && c.usable()
}

fn has_entry(c: &Crl<'_>) -> bool {
    c.revoked(&[0, 255]) == Some(1_900_000_000) && c.revoked(&[1, 0]).is_none()
}

#[test]
fn lists_with_an_entry(rt: HostRuntime) -> Result<(), Fail> {
    let mut world = World::new(rt.alloc(), 1);
    let issuer = world.key(0)?;
    let made = world.crl(0, 1_893_456_000, 4_102_444_800, Some((254, 1_900_000_000)))?;
    let Ok(read) = read_crl(made.as_slice()) else {
        return Err(Fail::new("no CRL"));
    };
    assert!(rt; has_updates(&read) && has_entry(&read));
    assert!(rt; verify(issuer.as_slice(), read.tbs(), read.signature()) == Verdict::Good);
    Ok(())
}

#[test]
fn lists_without_entries(rt: HostRuntime) -> Result<(), Fail> {
    let mut world = World::new(rt.alloc(), 1);
    let made = world.crl(0, 1_893_456_000, 4_102_444_800, None)?;
    let Ok(read) = read_crl(made.as_slice()) else {
        return Err(Fail::new("no CRL"));
    };
    assert!(rt; read.revoked(&[0, 255]).is_none());
    Ok(())
}

fn has_kind(token: &Token<'_>, kind: DigestKind) -> bool {
    token.imprint_kind() == kind && token.content_kind() == kind && token.cert_hash_kind() == kind
}

fn is_signed_with(token: &Token<'_>, certificate: &[u8]) -> bool {
    match token.signer() {
        Some(signer) => signer.whole() == certificate && token.certificate(1).is_none(),
        None => false,
    }
}

fn covered() -> Digest
    ensures { length result ≡ 64 }
{
    let mut hasher = Hasher::new(DigestKind::Sha512);
    hasher.put(b"abc");
    hasher.finish()
}

// A certificate and a token are told to be whole by their readers.
#[test]
fn tokens(rt: HostRuntime) -> Result<(), Fail> {
    let mut world = World::new(rt.alloc(), 1);
    let certificate = world.certificate(0, 2, 0, 4_102_444_800, Role::Stamper)?;
    let certificate = certificate.as_slice();
    assert!(rt; read_certificate(certificate).is_ok());
    let first = world.token(
        2,
        certificate,
        &covered(),
        DigestKind::Sha512,
        2_000_000_000,
    )?;
    let second = world.token(
        2,
        certificate,
        &covered(),
        DigestKind::Sha512,
        4_000_000_000,
    )?;
    assert!(rt; first.as_slice() != second.as_slice());
    let Ok(read) = read_token(second.as_slice()) else {
        return Err(Fail::new("no token"));
    };
    assert!(rt; read.gen_time() == 4_000_000_000 && read.accuracy() == 0);
    assert!(rt; has_kind(&read, DigestKind::Sha512) && is_signed_with(&read, certificate));
    Ok(())
}
