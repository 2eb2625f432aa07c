//! Objects of the made-up world with another key in them, signed anew by it.

use algorithms::SignatureKind;
use der_values::{elements_of, part};
use sample_world::{World, WorldFault};
use std::alloc::Global;
use xa_io::{Octs, OutOfMemory, put_tlv};

// An element of two runs of octets.
fn element(alloc: Global, tag: u8, first: &[u8], second: &[u8]) -> Result<Octs, OutOfMemory> {
    let mut content = Octs::new(alloc);
    content.push_all(first)?;
    content.push_all(second)?;
    let mut out = Octs::new(alloc);
    put_tlv(&mut out, tag, content.as_slice())?;
    Ok(out)
}

// These elements with another one in one place.
fn with_part(alloc: Global, content: &[u8], place: usize, new: &[u8]) -> Result<Octs, OutOfMemory> {
    let mut out = Octs::new(alloc);
    let mut number = 0usize;
    for element in elements_of(content) {
        let octets = if number == place { new } else { element.whole };
        out.push_all(octets)?;
        number = number.saturating_add(1);
    }
    Ok(out)
}

// The AlgorithmIdentifier of a kind, which has no parameters (RFC 9802, section 3).
fn algorithm(alloc: Global, kind: SignatureKind) -> Result<Octs, OutOfMemory> {
    let oid = element(alloc, 0x06, kind.oid(), &[])?;
    element(alloc, 0x30, oid.as_slice(), &[])
}

fn key(world: &mut World, kind: SignatureKind) -> Result<Octs, WorldFault> {
    match kind {
        SignatureKind::Hss => world.key(0),
        SignatureKind::Xmss => world.xmss_key(),
        SignatureKind::XmssMt => world.xmssmt_key(),
    }
}

fn sign(world: &mut World, kind: SignatureKind, message: &[u8]) -> Result<Octs, WorldFault> {
    match kind {
        SignatureKind::Hss => world.sign(0, message),
        SignatureKind::Xmss => world.xmss_sign(message),
        SignatureKind::XmssMt => world.xmssmt_sign(message),
    }
}

// An AlgorithmIdentifier and octets as a BIT STRING behind it.
fn with_bits(alloc: Global, kind: SignatureKind, octets: &[u8]) -> Result<Octs, OutOfMemory> {
    let mut out = algorithm(alloc, kind)?;
    let bits = element(alloc, 0x03, &[0], octets)?;
    out.push_all(bits.as_slice())?;
    Ok(out)
}

// The certificate or CRL with these fields, of which the one in this place is the AlgorithmIdentifier.
fn signed(
    alloc: Global,
    world: &mut World,
    kind: SignatureKind,
    fields: &[u8],
    place: usize,
) -> Result<Octs, WorldFault> {
    let algorithm = algorithm(alloc, kind)?;
    let fields = with_part(alloc, fields, place, algorithm.as_slice())?;
    let tbs = element(alloc, 0x30, fields.as_slice(), &[])?;
    let signature = sign(world, kind, tbs.as_slice())?;
    let behind = with_bits(alloc, kind, signature.as_slice())?;
    Ok(element(alloc, 0x30, tbs.as_slice(), behind.as_slice())?)
}

/// A certificate of the world with the key of this kind in it, signed by that key; of HSS it is key 0.
pub fn certificate_anew(
    alloc: Global,
    world: &mut World,
    kind: SignatureKind,
    made: &[u8],
) -> Result<Octs, WorldFault> {
    let key = key(world, kind)?;
    let info = with_bits(alloc, kind, key.as_slice())?;
    let info = element(alloc, 0x30, info.as_slice(), &[])?;
    let fields = with_part(alloc, part(0, part(0, made)), 6, info.as_slice())?;
    signed(alloc, world, kind, fields.as_slice(), 2)
}

/// A CRL of the world, signed by the key of this kind.
pub fn list_anew(
    alloc: Global,
    world: &mut World,
    kind: SignatureKind,
    made: &[u8],
) -> Result<Octs, WorldFault> {
    signed(alloc, world, kind, part(0, part(0, made)), 1)
}

// The SignerInfo of these fields, signed anew over the same attributes.
fn signer_info(
    alloc: Global,
    world: &mut World,
    kind: SignatureKind,
    fields: &[u8],
) -> Result<Octs, WorldFault> {
    let attributes = element(alloc, 0x31, part(3, fields), &[])?;
    let signature = sign(world, kind, attributes.as_slice())?;
    let value = element(alloc, 0x04, signature.as_slice(), &[])?;
    let algorithm = algorithm(alloc, kind)?;
    let fields = with_part(alloc, fields, 4, algorithm.as_slice())?;
    let fields = with_part(alloc, fields.as_slice(), 5, value.as_slice())?;
    Ok(element(alloc, 0x30, fields.as_slice(), &[])?)
}

// The SignedData of these fields with another SignerInfo.
fn with_signer(alloc: Global, fields: &[u8], signer: &[u8]) -> Result<Octs, OutOfMemory> {
    let signers = element(alloc, 0x31, signer, &[])?;
    let fields = with_part(alloc, fields, 4, signers.as_slice())?;
    let data = element(alloc, 0x30, fields.as_slice(), &[])?;
    element(alloc, 0xA0, data.as_slice(), &[])
}

/// A token of the world, signed by the key of this kind, which its certificate is to hold.
pub fn token_anew(
    alloc: Global,
    world: &mut World,
    kind: SignatureKind,
    made: &[u8],
) -> Result<Octs, WorldFault> {
    let data = part(0, part(1, part(0, made)));
    let signer = signer_info(alloc, world, kind, part(0, part(4, data)))?;
    let content = with_signer(alloc, data, signer.as_slice())?;
    let fields = with_part(alloc, part(0, made), 1, content.as_slice())?;
    Ok(element(alloc, 0x30, fields.as_slice(), &[])?)
}
