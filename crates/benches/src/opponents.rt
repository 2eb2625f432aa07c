//! Pools of certificates that cost as much as an opponent can make them cost: all have the anchor's name as their subject's and their
//! issuer's.

use crate::failed::Failed;
use crate::stamps_case::{Judged, LATE, day};
use algorithms::SignatureKind;
use existence_times::Case;
use sample_cases::{certificate_anew, policy_of, put_certificate, trusting};
use sample_world::{Role, World};
use std::alloc::Global;

const XMSS: &str =
    "[[digest]]\nname = \"sha256\"\n[[kind]]\nname = \"xmss\"\nuri = [\"urn:sample:xmss\"]\n";

// The octets with a number in place of the last four.
fn numbered(alloc: Global, octets: &[u8], number: u32) -> Result<Vec<u8>, Failed> {
    let mut copy = Vec::from_slice(alloc, &octets[..octets.len().saturating_sub(4)])?;
    copy.extend_from_slice(&number.to_be_bytes())?;
    Ok(copy)
}

/// So many certificates that the anchor's key didn't sign.
pub fn strangers(alloc: Global, count: u32) -> Result<Judged, Failed> {
    let mut world = World::new(alloc, 1);
    let anchor = world.certificate(0, 0, day(0), day(LATE), Role::Authority)?;
    let policy = trusting(alloc, anchor.as_slice())?;
    let mut case = Case::new(alloc, 1);
    for number in 0..count {
        let certificate = numbered(alloc, anchor.as_slice(), number)?;
        put_certificate(&mut case, &certificate)?;
    }
    Ok(Judged { case, policy })
}

/// So many certificates, below 1,000, that a key under an anchor signed, which is the key of each.
pub fn insiders(alloc: Global, count: u32) -> Result<Judged, Failed> {
    let mut world = World::new(alloc, 1);
    let kind = SignatureKind::Xmss;
    let made = world.certificate(0, 0, day(0), day(LATE), Role::Authority)?;
    let anchor = certificate_anew(alloc, &mut world, kind, made.as_slice())?;
    let policy = policy_of(alloc, 1, anchor.as_slice(), XMSS)?;
    let mut case = Case::new(alloc, 1);
    for _ in 0..count {
        let certificate = certificate_anew(alloc, &mut world, kind, made.as_slice())?;
        put_certificate(&mut case, certificate.as_slice())?;
    }
    Ok(Judged { case, policy })
}
