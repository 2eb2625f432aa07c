//! Who signs and who stamps: the keys of a made-up world.

ghost use Rattle.std.specs.Prelude.{◌≡◌, ◌<◌, length};

use algorithms::{Digest, DigestKind, Hasher};
use base64::engine::general_purpose::STANDARD;
use sample_world::{Role, World};
use std::alloc::Global;
use std::test::Fail;
use x509_certs::read_certificate;
use xa_io::{Octets, Octs};

// The first second of 2030, and the last of 2039.
const FROM: i64 = 1_893_456_000;

const TO: i64 = 2_208_988_799;

// The keys: the certificate authority's, the signer's, and those of two that stamp.
const AUTHORITY: u32 = 0;

const SIGNER: u32 = 1;

const STAMPER: u32 = 2;

const ARCHIVER: u32 = 3;

/// The keys, the policy that trusts the certificate authority, the signer's certificate, and the authority's revocation list.
#[derive(Drop)]
pub(crate) struct Keys {
    alloc: Global,
    world: World,
    pub(crate) policy: Octs,
    pub(crate) certificate: Octs,
    pub(crate) lists: Octs,
    stamper: Octs,
    archiver: Octs,
}

fn policy(alloc: Global, anchor: &[u8]) -> Result<Octs, Fail> {
    let anchor = STANDARD.encode(alloc, anchor)?;
    let text = format!(in alloc;
        "version = 1\nanchors = [\"{anchor}\"]\n[[kind]]\nname = \"hss\"\nuri = [\"urn:sample:hss\"]\n[[digest]]\nname = \"sha256\"\n"
    )?;
    let mut out = Octs::new(alloc);
    out.push_all(text.as_bytes())?;
    Ok(out)
}

fn digest(octets: &[u8]) -> Digest
    ensures { length result ≡ 32 }
{
    let mut hasher = Hasher::new(DigestKind::Sha256);
    hasher.put(octets);
    hasher.finish()
}

// A token by a key, where the certificate is whole and the time is one of the years 1950 to 9999.
fn token(
    world: &mut World,
    key: u32,
    certificate: &[u8],
    octets: &[u8],
    time: i64,
) -> Result<Octs, Fail>
    requires { key < 256 }
{
    if read_certificate(certificate).is_err() || time < 0 || time > 253_402_300_799 {
        return Err(Fail::new("no certificate"));
    }
    Ok(world.token(key, certificate, &digest(octets), DigestKind::Sha256, time)?)
}

impl Keys {
    pub(crate) fn new(alloc: Global) -> Result<Keys, Fail> {
        let mut world = World::new(alloc, 11);
        let anchor = world.certificate(AUTHORITY, AUTHORITY, FROM, TO, Role::Authority)?;
        Ok(Keys {
            alloc,
            policy: policy(alloc, anchor.as_slice())?,
            certificate: world.certificate(AUTHORITY, SIGNER, FROM, TO, Role::Signer)?,
            lists: world.crl(AUTHORITY, FROM, TO, None)?,
            stamper: world.certificate(AUTHORITY, STAMPER, FROM, TO, Role::Stamper)?,
            archiver: world.certificate(AUTHORITY, ARCHIVER, FROM, TO, Role::Stamper)?,
            world,
        })
    }

    /// The signer's value over octets.
    pub(crate) fn value(&mut self, octets: &[u8]) -> Result<Octs, Fail> {
        Ok(self.world.sign(SIGNER, octets)?)
    }

    /// A token over octets for a time-stamp on the signature.
    pub(crate) fn stamp(&mut self, octets: &[u8], time: i64) -> Result<Octs, Fail> {
        token(
            &mut self.world,
            STAMPER,
            self.stamper.as_slice(),
            octets,
            time,
        )
    }

    /// A token over octets for one on the archive.
    pub(crate) fn archive(&mut self, octets: &[u8], time: i64) -> Result<Octs, Fail> {
        token(
            &mut self.world,
            ARCHIVER,
            self.archiver.as_slice(),
            octets,
            time,
        )
    }

    pub(crate) fn alloc(&self) -> Global {
        self.alloc
    }
}
