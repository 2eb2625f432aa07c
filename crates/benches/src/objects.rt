//! Objects of the made-up world, for bench/compare_tokens.sh to hand to OpenSSL.

ghost use Rattle.std.specs.Prelude.{◌≡◌, length};

use crate::failed::Failed;
use algorithms::{Digest, DigestKind, Hasher};
use sample_world::{Role, World};
use std::alloc::Global;
use x509_certs::read_certificate;
use xa_io::{Octets, Octs};

// The first second of 2030, and of 2100.
const FROM: i64 = 1_893_456_000;

const TO: i64 = 4_102_444_800;

fn covered() -> Digest
    ensures { length result ≡ 32 }
{
    let mut hasher = Hasher::new(DigestKind::Sha256);
    hasher.put(b"abc");
    hasher.finish()
}

// A token over the SHA-256 of `abc` by key 2.
fn token(world: &mut World) -> Result<Octs, Failed> {
    let certificate = world.certificate(0, 2, FROM, TO, Role::Stamper)?;
    let certificate = certificate.as_slice();
    let Ok(_) = read_certificate(certificate) else {
        return Err(Failed);
    };
    let kind = DigestKind::Sha256;
    Ok(world.token(2, certificate, &covered(), kind, FROM)?)
}

// The certificate of key 2, a list that revokes key 3, or a token.
fn made(world: &mut World, name: &str) -> Result<Octs, Failed> {
    match name {
        "certificate" => Ok(world.certificate(0, 2, FROM, TO, Role::Stamper)?),
        "list" => Ok(world.crl(0, FROM, TO, Some((3, FROM)))?),
        _ => token(world),
    }
}

/// The object of a name, in hexadecimal.
pub fn object(alloc: Global, name: &str) -> Result<String, Failed> {
    let mut world = World::new(alloc, 1);
    let object = made(&mut world, name)?;
    Ok(hex::encode(alloc, object.as_slice())?)
}
