//! CRLs (RFC 5280, section 5.1).

ghost use Rattle.std.specs.Prelude.{◌≡◌, ◌++◌, ◌<◌, ◌≤ℤ◌, IfOk, IfSome, OnOk, pos, neg_ℤ};
ghost use Rattle.jiff_core.specs.Calendar.{IsBetween};
ghost use Rattle.sample_world.specs.Lists.{list_front, updates, entry, entries, list_fields};

use crate::der_parts::{element, put_algorithm, put_integer, put_name};
use crate::moments::put_time;
use std::alloc::Global;
use xa_io::{Octs, OutOfMemory, put_tlv};

// The version, the algorithm and the issuer.
#[tactic(auto, unfolding(crate::specs::Lists::list_front))]
fn list_front(alloc: Global, issuer: u32) -> Result<Octs, OutOfMemory>
    ensures { IfOk result (λ o. o ≡ list_front issuer) }
{
    let mut out = element(alloc, 0x02, &[1])?;
    put_algorithm(alloc, &mut out)?;
    put_name(alloc, &mut out, issuer)?;
    Ok(out)
}

// Appends thisUpdate and nextUpdate.
#[tactic(auto, unfolding(crate::specs::Lists::updates))]
fn put_updates(out: &mut Octs, from: i64, next: i64) -> Result<(), OutOfMemory>
    requires from { IsBetween (neg_ℤ (pos 62_167_219_200)) (pos 253_402_300_799) from }
    requires next { IsBetween (neg_ℤ (pos 62_167_219_200)) (pos 253_402_300_799) next }
    ensures { OnOk result (out.new ≡ out.old ++ updates from next) }
{
    put_time(out, from)?;
    put_time(out, next)
}

// The entry of a key's certificate.
#[tactic(auto, unfolding(crate::specs::Lists::entry))]
fn entry(alloc: Global, key: u32, date: i64) -> Result<Octs, OutOfMemory>
    requires key { key < 256 }
    requires date { IsBetween (neg_ℤ (pos 62_167_219_200)) (pos 253_402_300_799) date }
    ensures { IfOk result (λ o. o ≡ entry key date) }
{
    let mut content = Octs::new(alloc);
    put_integer(&mut content, key + 1)?;
    put_time(&mut content, date)?;
    element(alloc, 0x30, content.as_slice())
}

// Appends the entries, of which there is at most one.
#[tactic(auto, unfolding(crate::specs::Lists::entries))]
fn put_entries(
    alloc: Global,
    out: &mut Octs,
    revoked: Option<(u32, i64)>,
) -> Result<(), OutOfMemory>
    requires key { IfSome revoked (λ r. r.0 < 256) }
    requires date { IfSome revoked (λ r. IsBetween (neg_ℤ (pos 62_167_219_200)) (pos 253_402_300_799) r.1) }
    ensures { OnOk result (out.new ≡ out.old ++ entries revoked) }
{
    match revoked {
        Some((key, date)) => {
            let entry = entry(alloc, key, date)?;
            put_tlv(out, 0x30, entry.as_slice())
        }
        None => Ok(()),
    }
}

/// What the issuer of a CRL signs, without its tag and length.
#[tactic(auto, unfolding(crate::specs::Lists::list_fields))]
pub fn list_fields(
    alloc: Global,
    issuer: u32,
    from: i64,
    next: i64,
    revoked: Option<(u32, i64)>,
) -> Result<Octs, OutOfMemory>
    requires from { IsBetween (neg_ℤ (pos 62_167_219_200)) (pos 253_402_300_799) from }
    requires next { IsBetween (neg_ℤ (pos 62_167_219_200)) (pos 253_402_300_799) next }
    requires key { IfSome revoked (λ r. r.0 < 256) }
    requires date { IfSome revoked (λ r. IsBetween (neg_ℤ (pos 62_167_219_200)) (pos 253_402_300_799) r.1) }
    ensures { IfOk result (λ o. o ≡ list_fields issuer from next revoked) }
{
    let mut out = list_front(alloc, issuer)?;
    put_updates(&mut out, from, next)?;
    put_entries(alloc, &mut out, revoked)?;
    Ok(out)
}
