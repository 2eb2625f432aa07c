//! What the keys give.

ghost use Rattle.std.specs.Prelude.{◌≡◌, length};
ghost use Rattle.algorithms.specs.Digests.{size_of};

use crate::failed::Failed;
use crate::world::{SIGNER, stamper, world};
use algorithms::{Digest, DigestKind, Hasher};
use base64::engine::general_purpose::STANDARD;
use std::alloc::Global;
use utc_times::read_time;
use x509_certs::read_certificate;
use xa_io::{Octets, Octs};

fn policy(alloc: Global, anchor: &[u8]) -> Result<Octs, Failed> {
    let anchor = STANDARD.encode(alloc, anchor)?;
    let text = format!(in alloc;
        "version = 1\nanchors = [\"{anchor}\"]\n[[kind]]\nname = \"hss\"\nuri = [\"urn:sample:hss\"]\n[[digest]]\nname = \"sha256\"\n"
    )?;
    let mut out = Octs::new(alloc);
    out.push_all(text.as_bytes())?;
    Ok(out)
}

/// The policy, the signer's certificate, or the revocation list.
pub fn object(alloc: Global, kind: &str) -> Result<Octs, Failed> {
    let (_, issued) = world(alloc)?;
    match kind {
        "policy" => policy(alloc, issued.anchor.as_slice()),
        "certificate" => Ok(issued.signer),
        "lists" => Ok(issued.lists),
        _ => Err(Failed),
    }
}

/// The signer's value over octets.
pub fn value(alloc: Global, octets: &[u8]) -> Result<Octs, Failed> {
    let (mut world, _) = world(alloc)?;
    Ok(world.sign(SIGNER, octets)?)
}

fn digest(octets: &[u8]) -> Digest
    ensures { length result ≡ 32 }
{
    let mut hasher = Hasher::new(DigestKind::Sha256);
    hasher.put(octets);
    hasher.finish()
}

// The key of an authority that stamps.
fn key_of(authority: &str) -> Result<u32, Failed> {
    match authority {
        "1" => Ok(2),
        "2" => Ok(3),
        "3" => Ok(4),
        "4" => Ok(5),
        _ => Err(Failed),
    }
}

/// A time-stamp token of an authority over octets.
pub fn token(alloc: Global, authority: &str, octets: &[u8], time: &str) -> Result<Octs, Failed> {
    let key = key_of(authority)?;
    let Some(time) = read_time(time.as_bytes()) else {
        return Err(Failed);
    };
    let (mut world, _) = world(alloc)?;
    let certificate = stamper(&mut world, key)?;
    let certificate = certificate.as_slice();
    if read_certificate(certificate).is_err()
        || time < -631_152_000
        || time > 253_402_300_799
        || key > 255
    {
        return Err(Failed);
    }
    let kind = DigestKind::Sha256;
    Ok(world.token(key, certificate, &digest(octets), kind, time)?)
}
