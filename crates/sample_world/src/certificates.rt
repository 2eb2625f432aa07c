//! Certificates (RFC 5280, sections 4.1 and 4.2).

ghost use Rattle.std.specs.Prelude.{◌≡◌, ◌++◌, ◌<◌, ◌≤ℤ◌, IfOk, OnOk, pos, neg_ℤ};
ghost use Rattle.jiff_core.specs.Calendar.{IsBetween};
ghost use Rattle.sample_world.specs.Certificates.{extension, extensions, validity, key_info, certificate_front, certificate_back, certificate_fields};

use crate::der_parts::{element, put_algorithm, put_bit_string, put_integer, put_name};
use crate::moments::put_time;
use der_values::KnownOid;
use std::alloc::Global;
use xa_io::{Octs, OutOfMemory, put_tlv};

/// What the subject of a certificate may do.
#[derive(Clone, Copy, Debug, PartialEq, Eq)]
pub enum Role {
    /// Issue certificates and CRLs: critical basicConstraints with cA, and critical keyUsage.
    Authority,
    /// Sign documents: no extension.
    Signer,
    /// Stamp times: critical extKeyUsage with id-kp-timeStamping.
    Stamper,
}

// Appends a critical extension.
#[tactic(auto, unfolding(crate::specs::Certificates::extension))]
fn put_extension(
    alloc: Global,
    out: &mut Octs,
    oid: KnownOid,
    value: &[u8],
) -> Result<(), OutOfMemory>
    ensures { OnOk result (out.new ≡ out.old ++ extension oid value.now) }
{
    let mut content = element(alloc, 0x06, oid.content())?;
    put_tlv(&mut content, 0x01, &[0xFF])?;
    put_tlv(&mut content, 0x04, value)?;
    put_tlv(out, 0x30, content.as_slice())
}

// Appends the extensions of a certification authority.
#[tactic(auto, unfolding(crate::specs::Certificates::extensions))]
fn put_authority(alloc: Global, out: &mut Octs) -> Result<(), OutOfMemory>
    ensures { OnOk result (out.new ≡ out.old ++ extensions Role.Authority) }
{
    let may_issue = element(alloc, 0x01, &[0xFF])?;
    let may_issue = element(alloc, 0x30, may_issue.as_slice())?;
    let signs_both = element(alloc, 0x03, &[1, 0x06])?;
    let mut list = Octs::new(alloc);
    let oid = KnownOid::BasicConstraints;
    put_extension(alloc, &mut list, oid, may_issue.as_slice())?;
    let oid = KnownOid::KeyUsage;
    put_extension(alloc, &mut list, oid, signs_both.as_slice())?;
    let list = element(alloc, 0x30, list.as_slice())?;
    put_tlv(out, 0xA3, list.as_slice())
}

// Appends the extensions of a time-stamping authority.
#[tactic(auto, unfolding(crate::specs::Certificates::extensions))]
fn put_stamper(alloc: Global, out: &mut Octs) -> Result<(), OutOfMemory>
    ensures { OnOk result (out.new ≡ out.old ++ extensions Role.Stamper) }
{
    let purpose = element(alloc, 0x06, KnownOid::TimeStamping.content())?;
    let purposes = element(alloc, 0x30, purpose.as_slice())?;
    let mut list = Octs::new(alloc);
    put_extension(alloc, &mut list, KnownOid::ExtKeyUsage, purposes.as_slice())?;
    let list = element(alloc, 0x30, list.as_slice())?;
    put_tlv(out, 0xA3, list.as_slice())
}

// Appends the extensions of a role.
#[tactic(auto, unfolding(crate::specs::Certificates::extensions))]
fn put_extensions(alloc: Global, out: &mut Octs, role: Role) -> Result<(), OutOfMemory>
    ensures { OnOk result (out.new ≡ out.old ++ extensions role) }
{
    match role {
        Role::Authority => put_authority(alloc, out),
        Role::Signer => Ok(()),
        Role::Stamper => put_stamper(alloc, out),
    }
}

// Appends the validity.
#[tactic(auto, unfolding(crate::specs::Certificates::validity))]
fn put_validity(alloc: Global, out: &mut Octs, from: i64, to: i64) -> Result<(), OutOfMemory>
    requires from { IsBetween (neg_ℤ (pos 62_167_219_200)) (pos 253_402_300_799) from }
    requires to { IsBetween (neg_ℤ (pos 62_167_219_200)) (pos 253_402_300_799) to }
    ensures { OnOk result (out.new ≡ out.old ++ validity from to) }
{
    let mut times = Octs::new(alloc);
    put_time(&mut times, from)?;
    put_time(&mut times, to)?;
    put_tlv(out, 0x30, times.as_slice())
}

// Appends the subject's key.
#[tactic(auto, unfolding(crate::specs::Certificates::key_info))]
fn put_key_info(alloc: Global, out: &mut Octs, key: &[u8]) -> Result<(), OutOfMemory>
    ensures { OnOk result (out.new ≡ out.old ++ key_info key.now) }
{
    let mut content = Octs::new(alloc);
    put_algorithm(alloc, &mut content)?;
    put_bit_string(alloc, &mut content, key)?;
    put_tlv(out, 0x30, content.as_slice())
}

/// What a certificate says, but for its subject's key.
#[derive(Clone, Copy, Debug)]
pub struct Terms {
    pub issuer: u32,
    pub subject: u32,
    pub from: i64,
    pub to: i64,
    pub role: Role,
}

// The version, the serial, the algorithm and the issuer.
#[tactic(auto, unfolding(crate::specs::Certificates::certificate_front))]
fn certificate_front(alloc: Global, issuer: u32, subject: u32) -> Result<Octs, OutOfMemory>
    requires { subject < 256 }
    ensures { IfOk result (λ o. o ≡ certificate_front issuer subject) }
{
    let version = element(alloc, 0x02, &[2])?;
    let mut out = element(alloc, 0xA0, version.as_slice())?;
    put_integer(&mut out, subject + 1)?;
    put_algorithm(alloc, &mut out)?;
    put_name(alloc, &mut out, issuer)?;
    Ok(out)
}

// Appends the subject, its key and its extensions.
#[tactic(auto, unfolding(crate::specs::Certificates::certificate_back))]
fn put_back(
    alloc: Global,
    out: &mut Octs,
    subject: u32,
    role: Role,
    key: &[u8],
) -> Result<(), OutOfMemory>
    ensures { OnOk result (out.new ≡ out.old ++ certificate_back subject role key.now) }
{
    put_name(alloc, out, subject)?;
    put_key_info(alloc, out, key)?;
    put_extensions(alloc, out, role)
}

/// What the issuer of a certificate signs, without its tag and length.
#[tactic(auto, unfolding(crate::specs::Certificates::certificate_fields))]
pub fn certificate_fields(alloc: Global, terms: Terms, key: &[u8]) -> Result<Octs, OutOfMemory>
    requires subject { terms.subject < 256 }
    requires from { IsBetween (neg_ℤ (pos 62_167_219_200)) (pos 253_402_300_799) terms.from }
    requires to { IsBetween (neg_ℤ (pos 62_167_219_200)) (pos 253_402_300_799) terms.to }
    ensures { IfOk result (λ o. o ≡ certificate_fields terms.issuer terms.subject terms.from terms.to terms.role key.now) }
{
    let mut out = certificate_front(alloc, terms.issuer, terms.subject)?;
    put_validity(alloc, &mut out, terms.from, terms.to)?;
    put_back(alloc, &mut out, terms.subject, terms.role, key)?;
    Ok(out)
}
