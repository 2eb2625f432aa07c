//! A certificate and a CRL that are built piece by piece.

use std::alloc::Global;
use xa_io::{Octs, OutOfMemory, put_tlv};

const VERSION: [u8; 5] = [0xA0, 3, 2, 1, 2];

const SERIAL: [u8; 3] = [2, 1, 7];
// HSS
const ALGORITHM: [u8; 15] = [
    0x30, 0x0D, 6, 0x0B, 0x2A, 0x86, 0x48, 0x86, 0xF7, 0x0D, 1, 9, 0x10, 3, 0x11,
];

pub const NAME: [u8; 15] = [
    0x30, 0x0D, 0x31, 0x0B, 0x30, 9, 6, 3, 0x55, 4, 3, 0x0C, 2, 0x4B, 0x31,
];

const VALIDITY: [u8; 34] = *b"\x30\x20\x17\x0D300101000000Z\x18\x0F20700101000000Z";

const KEY: [u8; 23] = [
    0x30, 0x15, 0x30, 0x0D, 6, 0x0B, 0x2A, 0x86, 0x48, 0x86, 0xF7, 0x0D, 1, 9, 0x10, 3, 0x11, 3, 4,
    0, 1, 2, 3,
];

pub const CA: [u8; 20] = [
    0x30, 0x12, 6, 3, 0x55, 0x1D, 0x13, 1, 1, 0xFF, 4, 8, 0x30, 6, 1, 1, 0xFF, 2, 1, 3,
];

pub const USAGE: [u8; 16] = [
    0x30, 0x0E, 6, 3, 0x55, 0x1D, 0x0F, 1, 1, 0xFF, 4, 4, 3, 2, 2, 4,
];

const SIGNATURE: [u8; 5] = [3, 3, 0, 9, 9];

pub const NOTHING_CHANGED: usize = 100;

// The usual piece, or the new one where this number is the changed one.
fn pick<'a>(number: usize, changed: usize, usual: &'a [u8], new: &'a [u8]) -> &'a [u8] {
    if number == changed { new } else { usual }
}

// A SEQUENCE of what is signed, the algorithm and the signature.
fn signed(alloc: Global, tbs: &Octs, outer: &[u8], bits: &[u8]) -> Result<Octs, OutOfMemory> {
    let mut content = Octs::new(alloc);
    put_tlv(&mut content, 0x30, tbs.as_slice())?;
    content.push_all(outer)?;
    content.push_all(bits)?;
    let mut whole = Octs::new(alloc);
    put_tlv(&mut whole, 0x30, content.as_slice())?;
    Ok(whole)
}

/// basicConstraints, a keyUsage and what follows.
pub fn extensions(alloc: Global, usage: &[u8], more: &[u8]) -> Result<Octs, OutOfMemory> {
    let mut list = Octs::new(alloc);
    list.push_all(&CA)?;
    list.push_all(usage)?;
    list.push_all(more)?;
    let mut sequence = Octs::new(alloc);
    put_tlv(&mut sequence, 0x30, list.as_slice())?;
    let mut whole = Octs::new(alloc);
    put_tlv(&mut whole, 0xA3, sequence.as_slice())?;
    Ok(whole)
}

/// The certificate, with the piece of a number changed.
pub fn certificate(alloc: Global, changed: usize, new: &[u8]) -> Result<Octs, OutOfMemory> {
    let usual = extensions(alloc, &USAGE, &[])?;
    let mut tbs = Octs::new(alloc);
    tbs.push_all(pick(0, changed, &VERSION, new))?;
    tbs.push_all(pick(1, changed, &SERIAL, new))?;
    tbs.push_all(pick(2, changed, &ALGORITHM, new))?;
    tbs.push_all(pick(3, changed, &NAME, new))?;
    tbs.push_all(pick(4, changed, &VALIDITY, new))?;
    tbs.push_all(pick(5, changed, &NAME, new))?;
    tbs.push_all(pick(6, changed, &KEY, new))?;
    tbs.push_all(pick(7, changed, usual.as_slice(), new))?;
    signed(
        alloc,
        &tbs,
        pick(8, changed, &ALGORITHM, new),
        pick(9, changed, &SIGNATURE, new),
    )
}

const EARLY: [u8; 20] = *b"\x30\x12\x02\x01\x07\x17\x0D300201000000Z";

const LATE: [u8; 20] = *b"\x30\x12\x02\x01\x07\x17\x0D300301000000Z";

const OTHER: [u8; 20] = *b"\x30\x12\x02\x01\x08\x17\x0D300101000000Z";

const THIS_UPDATE: [u8; 15] = *b"\x17\x0D300401000000Z";

/// The CRL, with the piece of a number changed.
pub fn list(alloc: Global, changed: usize, new: &[u8]) -> Result<Octs, OutOfMemory> {
    let mut entries = Octs::new(alloc);
    entries.push_all(&LATE)?;
    entries.push_all(pick(3, changed, &EARLY, new))?;
    entries.push_all(&OTHER)?;
    let mut tbs = Octs::new(alloc);
    tbs.push_all(pick(0, changed, &[2, 1, 1], new))?;
    tbs.push_all(&ALGORITHM)?;
    tbs.push_all(&NAME)?;
    tbs.push_all(pick(1, changed, &THIS_UPDATE, new))?;
    put_tlv(&mut tbs, 0x30, entries.as_slice())?;
    tbs.push_all(pick(2, changed, &[], new))?;
    signed(alloc, &tbs, pick(4, changed, &ALGORITHM, new), &SIGNATURE)
}
