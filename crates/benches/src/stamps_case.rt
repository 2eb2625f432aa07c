//! A case of 64 stamps over 256 objects, with its policy.

ghost use Rattle.std.specs.Prelude.{◌≡◌, ◌<◌, length, pos, neg_ℤ};
ghost use Rattle.jiff_core.specs.Calendar.{IsBetween};

use crate::failed::Failed;
use algorithms::{Digest, DigestKind, Hasher};
use existence_times::Case;
use policy_rules::Policy;
use sample_cases::{put_certificate, put_list, put_stamp, put_token, trusting};
use sample_world::{Role, World};
use std::alloc::Global;
use x509_certs::read_certificate;
use xa_io::{Octets, Octs};

// The References. The objects behind the value are a CRL, a certificate and a CRL of each of 4 authorities, and a certificate and 4 tokens
// of each of 16 stampers.
const REFERENCES: u32 = 166;

/// The day of the judging.
pub const NOW: u16 = 400;

// The day at which the other stampers' certificates end.
const SOON: u16 = 300;

/// The day at which the first stamper's certificate and the authorities' end.
pub const LATE: u16 = 1000;

/// A case, and the policy by which it is judged.
#[derive(Drop)]
pub struct Judged {
    pub case: Case,
    pub policy: Policy,
}

/// The first second of a day, counted from the first one of 2030.
pub fn day(number: u16) -> i64
    ensures { IsBetween (neg_ℤ (pos 631_152_000)) (pos 253_402_300_799) result }
{
    1_893_456_000 + i64::from(number) * 86_400
}

fn covered() -> Digest
    ensures { length result ≡ 32 }
{
    let mut hasher = Hasher::new(DigestKind::Sha256);
    hasher.put(b"covered");
    hasher.finish()
}

// Puts the authorities of keys 1 to 4 with their CRLs, and the CRL of key 0.
fn put_authorities(world: &mut World, case: &mut Case) -> Result<(), Failed> {
    let list = world.crl(0, day(0), day(LATE), None)?;
    put_list(case, list.as_slice())?;
    for key in 1..5 {
        let certificate = world.certificate(0, key, day(0), day(LATE), Role::Authority)?;
        put_certificate(case, certificate.as_slice())?;
        let list = world.crl(key, day(0), day(LATE), None)?;
        put_list(case, list.as_slice())?;
    }
    Ok(())
}

// Puts the 4 tokens of a stamper, each of the day before the last one's, and keeps them.
fn put_tokens(
    world: &mut World,
    case: &mut Case,
    stamper: u16,
    tokens: &mut Vec<Octs>,
) -> Result<(), Failed>
    requires { stamper < 16 }
{
    let key = 5 + u32::from(stamper);
    let end = if stamper == 0 { LATE } else { SOON };
    let issuer = 1 + u32::from(stamper) % 4;
    let certificate = world.certificate(issuer, key, day(0), day(end), Role::Stamper)?;
    let certificate = certificate.as_slice();
    let Ok(_) = read_certificate(certificate) else {
        return Err(Failed);
    };
    for number in 0..4 {
        let date = day(200 - 4 * stamper - number);
        let token = world.token(key, certificate, &covered(), DigestKind::Sha256, date)?;
        put_token(case, token.as_slice())?;
        tokens.push(token)?;
    }
    Ok(())
}

// The References and the value, and the token of a number, or the value again where there is none.
fn covers(alloc: Global, number: u32) -> Result<Vec<u32>, Failed>
    requires { number < 65 }
{
    let mut covers = Vec::new(alloc);
    for object in 0..REFERENCES + 1 {
        covers.push(object)?;
    }
    if number < 64 {
        covers.push(REFERENCES + 11 + 5 * (number / 4) + number % 4)?;
    }
    Ok(covers)
}

fn put_stamps(
    alloc: Global,
    case: &mut Case,
    tokens: &[Octs],
    upwards: bool,
) -> Result<(), Failed> {
    let count = tokens.len().min(64);
    for place in 0..count {
        let number = if upwards { place } else { count - 1 - place };
        let covers = covers(alloc, number as u32 + 1)?;
        let token = tokens[number].as_slice();
        put_stamp(alloc, case, token, true, covers.as_slice())?;
    }
    Ok(())
}

/// A case of 64 stamps over 256 objects. Each stamp covers the References, the value and the token of one other stamp, which is accepted
/// only where that one does its work: the one behind it where the order is upwards, and else the one before it.
pub fn sample_case(alloc: Global, upwards: bool) -> Result<Judged, Failed> {
    let mut world = World::new(alloc, 1);
    let anchor = world.certificate(0, 0, day(0), day(LATE), Role::Authority)?;
    let policy = trusting(alloc, anchor.as_slice())?;
    let mut case = Case::new(alloc, REFERENCES);
    put_authorities(&mut world, &mut case)?;
    let mut tokens = Vec::new(alloc);
    for stamper in 0..16 {
        put_tokens(&mut world, &mut case, stamper, &mut tokens)?;
    }
    put_stamps(alloc, &mut case, tokens.as_slice(), upwards)?;
    Ok(Judged { case, policy })
}
