//! Certificates, a list and a token of the made-up world.

ghost use Rattle.std.specs.Prelude.{◌≡◌, length};

use algorithms::{Digest, DigestKind, Hasher};
use sample_world::{Role, World};
use std::alloc::Global;
use std::test::Fail;
use x509_certs::read_certificate;
use xa_io::{Octets, Octs};

// The first second of 2030, and of 2033.
const START: i64 = 1_893_456_000;

const END: i64 = 1_988_150_400;

#[derive(Drop)]
pub(crate) struct Objects {
    pub(crate) authority: Octs,
    pub(crate) signer: Octs,
    pub(crate) list: Octs,
    pub(crate) stamper: Octs,
    pub(crate) token: Octs,
}

pub(crate) fn digest_of(octets: &[u8]) -> Digest
    ensures { length result ≡ 32 }
{
    let mut hasher = Hasher::new(DigestKind::Sha256);
    hasher.put(octets);
    hasher.finish()
}

fn made_token(world: &mut World, stamper: &[u8]) -> Result<Octs, Fail> {
    match read_certificate(stamper) {
        Ok(_) => Ok(world.token(2, stamper, &digest_of(b"abc"), DigestKind::Sha256, START)?),
        Err(_) => Err(Fail::new("no certificate")),
    }
}

pub(crate) fn made(alloc: Global) -> Result<Objects, Fail> {
    let mut world = World::new(alloc, 3);
    let authority = world.certificate(0, 0, START, END, Role::Authority)?;
    let signer = world.certificate(0, 1, START, END, Role::Signer)?;
    let list = world.crl(0, START, END, None)?;
    let stamper = world.certificate(0, 2, START, END, Role::Stamper)?;
    let token = made_token(&mut world, stamper.as_slice())?;
    Ok(Objects {
        authority,
        signer,
        list,
        stamper,
        token,
    })
}
