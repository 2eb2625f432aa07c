//! Tokens of the made-up world, and tokens that are signed by nobody.

ghost use Rattle.std.specs.Prelude.{◌≡◌, length};

use algorithms::{Digest, DigestKind, Hasher};
use base64_texts::decode;
use sample_world::{Role, World};
use std::alloc::Global;
use std::test::Fail;
use x509_certs::read_certificate;
use xa_io::{Octets, Octs};

// The first second of 2030, which is the time of the tokens in the documents, and of 2033.
pub(crate) const START: i64 = 1_893_456_000;

const END: i64 = 1_988_150_400;

fn digest_of(octets: &[u8]) -> Digest
    ensures { length result ≡ 32 }
{
    let mut hasher = Hasher::new(DigestKind::Sha256);
    hasher.put(octets);
    hasher.finish()
}

// Tokens over two texts, one behind the other.
pub(crate) fn tokens_over(alloc: Global, first: &str, second: &str) -> Result<(Octs, Octs), Fail> {
    let mut world = World::new(alloc, 3);
    let stamper = world.certificate(0, 2, START, END, Role::Stamper)?;
    let stamper = stamper.as_slice();
    let (first, second) = (digest_of(first.as_bytes()), digest_of(second.as_bytes()));
    match read_certificate(stamper) {
        Ok(_) => Ok((
            world.token(2, stamper, &first, DigestKind::Sha256, START)?,
            world.token(2, stamper, &second, DigestKind::Sha256, START)?,
        )),
        Err(_) => Err(Fail::new("no certificate")),
    }
}

// The token of the documents, and one of a second before. Both have nothing but what each has.
const BARE: &[u8] =
    b"MIHCBgkqhkiG9w0BBwKggbQwgbECAQMxADA/BgsqhkiG9w0BCRABBKAwBC4wLAIBAQYCKgMwDzALBglghkgBZQMEAgEEAAIBARgPMjAzMDAxMDEwMDAwMDBaMWkwZwIBATAFMAACAQEwCwYJYIZIAWUDBAIBoEYwGgYJKoZIhvcNAQkDMQ0GCyqGSIb3DQEJEAEEMA8GCSqGSIb3DQEJBDECBAAwFwYLKoZIhvcNAQkQAi8xCDAGMAQwAgQAMAQGAioDBAA=";

const EARLY: &[u8] =
    b"MIHCBgkqhkiG9w0BBwKggbQwgbECAQMxADA/BgsqhkiG9w0BCRABBKAwBC4wLAIBAQYCKgMwDzALBglghkgBZQMEAgEEAAIBARgPMjAyOTEyMzEyMzU5NTlaMWkwZwIBATAFMAACAQEwCwYJYIZIAWUDBAIBoEYwGgYJKoZIhvcNAQkDMQ0GCyqGSIb3DQEJEAEEMA8GCSqGSIb3DQEJBDECBAAwFwYLKoZIhvcNAQkQAi8xCDAGMAQwAgQAMAQGAioDBAA=";

fn spelled(alloc: Global, text: &[u8]) -> Result<Octs, Fail> {
    match decode(alloc, text) {
        Ok(octets) => Ok(octets),
        Err(_) => Err(Fail::new("no base64")),
    }
}

pub(crate) fn bare(alloc: Global) -> Result<Octs, Fail> {
    spelled(alloc, BARE)
}

pub(crate) fn early(alloc: Global) -> Result<Octs, Fail> {
    spelled(alloc, EARLY)
}
