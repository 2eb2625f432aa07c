//! Time-stamp tokens (RFC 3161, section 2.4.2; RFC 5652, section 5; RFC 5035, sections 3 and 4).

ghost use Rattle.std.specs.Prelude.{◌≡◌, ◌++◌, ◌<◌, ◌^◌, ◌≤ℤ◌, IfOk, OnOk, pos, neg_ℤ};
ghost use Rattle.jiff_core.specs.Calendar.{IsBetween};
ghost use Rattle.algorithms.specs.Digests.{digest_of};
ghost use Rattle.der_values.specs.Fits.{IsObject};
ghost use Rattle.x509_certs.specs.Layouts as layout;
ghost use Rattle.sample_world.specs.Tokens.{digest_algorithm, imprint, accuracy_of, time_within, stamp_info, content, attribute, hash_algorithm, signing_certificate, attributes, signer_name, signer_info, signed_data, token};

use crate::der_parts::{element, put_algorithm, put_integer};
use crate::moments::put_generalized_time;
use algorithms::{Digest, DigestKind, Hasher};
use der_values::KnownOid;
use std::alloc::Global;
use x509_certs::read_certificate;
use xa_io::{Octets, Octs, OutOfMemory, put_tlv};

// The content octets of the policy 1.3.6.1.4.1.99999.1.
const POLICY: [u8; 9] = [0x2B, 0x06, 0x01, 0x04, 0x01, 0x86, 0x8D, 0x1F, 0x01];

// The digest of a message.
fn digest(kind: DigestKind, message: &[u8]) -> Digest
    ensures { result ≡ digest_of kind message.now }
{
    let mut hasher = Hasher::new(kind);
    hasher.put(message);
    hasher.finish()
}

// Appends the AlgorithmIdentifier of a digest.
#[tactic(auto, unfolding(crate::specs::Tokens::digest_algorithm))]
fn put_digest_algorithm(alloc: Global, out: &mut Octs, kind: DigestKind) -> Result<(), OutOfMemory>
    ensures { OnOk result (out.new ≡ out.old ++ digest_algorithm kind) }
{
    let oid = element(alloc, 0x06, kind.oid())?;
    put_tlv(out, 0x30, oid.as_slice())
}

// Appends the MessageImprint of a digest.
#[tactic(auto, unfolding(crate::specs::Tokens::imprint))]
fn put_imprint(
    alloc: Global,
    out: &mut Octs,
    kind: DigestKind,
    covered: &[u8],
) -> Result<(), OutOfMemory>
    ensures { OnOk result (out.new ≡ out.old ++ imprint kind covered.now) }
{
    let mut fields = Octs::new(alloc);
    put_digest_algorithm(alloc, &mut fields, kind)?;
    put_tlv(&mut fields, 0x04, covered)?;
    put_tlv(out, 0x30, fields.as_slice())
}

// Appends an Accuracy of so many seconds, or nothing where there are none.
#[tactic(auto, unfolding(crate::specs::Tokens::accuracy_of))]
fn put_accuracy(alloc: Global, out: &mut Octs, seconds: u32) -> Result<(), OutOfMemory>
    requires { seconds < 2 ^ 31 }
    ensures { OnOk result (out.new ≡ out.old ++ accuracy_of seconds) }
{
    if seconds == 0 {
        return Ok(());
    }
    let mut fields = Octs::new(alloc);
    put_integer(&mut fields, seconds)?;
    put_tlv(out, 0x30, fields.as_slice())
}

// Appends genTime and an accuracy.
#[tactic(auto, unfolding(crate::specs::Tokens::time_within))]
fn put_time_within(
    alloc: Global,
    out: &mut Octs,
    gen_time: i64,
    accuracy: u32,
) -> Result<(), OutOfMemory>
    requires gen_time { IsBetween (neg_ℤ (pos 62_167_219_200)) (pos 253_402_300_799) gen_time }
    requires accuracy { accuracy < 2 ^ 31 }
    ensures { OnOk result (out.new ≡ out.old ++ time_within gen_time accuracy) }
{
    put_generalized_time(out, gen_time)?;
    put_accuracy(alloc, out, accuracy)
}

/// TSTInfo over a digest, with an accuracy in seconds; 0 leaves it out.
#[tactic(auto, unfolding(crate::specs::Tokens::stamp_info))]
pub fn stamp_info(
    alloc: Global,
    kind: DigestKind,
    covered: &[u8],
    serial: u32,
    gen_time: i64,
    accuracy: u32,
) -> Result<Octs, OutOfMemory>
    requires serial { serial < 2 ^ 23 }
    requires accuracy { accuracy < 2 ^ 31 }
    requires gen_time { IsBetween (neg_ℤ (pos 62_167_219_200)) (pos 253_402_300_799) gen_time }
    ensures { IfOk result (λ o. o ≡ stamp_info kind covered.now serial gen_time accuracy) }
{
    let mut fields = element(alloc, 0x02, &[1])?;
    put_tlv(&mut fields, 0x06, &POLICY)?;
    put_imprint(alloc, &mut fields, kind, covered)?;
    put_integer(&mut fields, serial)?;
    put_time_within(alloc, &mut fields, gen_time, accuracy)?;
    element(alloc, 0x30, fields.as_slice())
}

// Appends the content that is signed.
#[tactic(auto, unfolding(crate::specs::Tokens::content))]
fn put_content(alloc: Global, out: &mut Octs, info: &[u8]) -> Result<(), OutOfMemory>
    ensures { OnOk result (out.new ≡ out.old ++ content info.now) }
{
    let mut fields = element(alloc, 0x06, KnownOid::TstInfo.content())?;
    let octets = element(alloc, 0x04, info)?;
    put_tlv(&mut fields, 0xA0, octets.as_slice())?;
    put_tlv(out, 0x30, fields.as_slice())
}

// Appends an attribute of one value.
#[tactic(auto, unfolding(crate::specs::Tokens::attribute))]
fn put_attribute(
    alloc: Global,
    out: &mut Octs,
    name: KnownOid,
    value: &[u8],
) -> Result<(), OutOfMemory>
    ensures { OnOk result (out.new ≡ out.old ++ attribute name value.now) }
{
    let mut fields = element(alloc, 0x06, name.content())?;
    put_tlv(&mut fields, 0x31, value)?;
    put_tlv(out, 0x30, fields.as_slice())
}

// Appends the hash algorithm of a certificate's hash, where it isn't the default.
#[tactic(auto, unfolding(crate::specs::Tokens::hash_algorithm))]
fn put_hash_algorithm(alloc: Global, out: &mut Octs, kind: DigestKind) -> Result<(), OutOfMemory>
    ensures { OnOk result (out.new ≡ out.old ++ hash_algorithm kind) }
{
    match kind {
        DigestKind::Sha256 => Ok(()),
        DigestKind::Sha384 | DigestKind::Sha512 => put_digest_algorithm(alloc, out, kind),
    }
}

// SigningCertificateV2 with one ESSCertIDv2.
#[tactic(auto, unfolding(crate::specs::Tokens::signing_certificate))]
fn signing_certificate(
    alloc: Global,
    kind: DigestKind,
    certificate: &[u8],
) -> Result<Octs, OutOfMemory>
    ensures { IfOk result (λ o. o ≡ signing_certificate kind certificate.now) }
{
    let hash = digest(kind, certificate);
    let mut fields = Octs::new(alloc);
    put_hash_algorithm(alloc, &mut fields, kind)?;
    put_tlv(&mut fields, 0x04, hash.as_slice())?;
    let id = element(alloc, 0x30, fields.as_slice())?;
    let ids = element(alloc, 0x30, id.as_slice())?;
    element(alloc, 0x30, ids.as_slice())
}

/// The signed attributes, without their tag and length.
#[tactic(auto, unfolding(crate::specs::Tokens::attributes))]
pub fn attributes(
    alloc: Global,
    kind: DigestKind,
    info: &[u8],
    certificate: &[u8],
) -> Result<Octs, OutOfMemory>
    ensures { IfOk result (λ o. o ≡ attributes kind info.now certificate.now) }
{
    let content_type = element(alloc, 0x06, KnownOid::TstInfo.content())?;
    let hash = digest(kind, info);
    let message_digest = element(alloc, 0x04, hash.as_slice())?;
    let signing_certificate = signing_certificate(alloc, kind, certificate)?;
    let mut out = Octs::new(alloc);
    let name = KnownOid::ContentType;
    put_attribute(alloc, &mut out, name, content_type.as_slice())?;
    let name = KnownOid::MessageDigest;
    put_attribute(alloc, &mut out, name, message_digest.as_slice())?;
    let name = KnownOid::SigningCertificate;
    put_attribute(alloc, &mut out, name, signing_certificate.as_slice())?;
    Ok(out)
}

// Appends the issuer and the serial of the signer's certificate.
#[tactic(auto, unfolding(crate::specs::Tokens::signer_name))]
fn put_signer_name(alloc: Global, out: &mut Octs, certificate: &[u8]) -> Result<(), OutOfMemory>
    requires { IsObject layout.certificate certificate.now }
    ensures { OnOk result (out.new ≡ out.old ++ signer_name certificate.now) }
{
    match read_certificate(certificate) {
        Ok(read) => {
            let mut fields = Octs::new(alloc);
            fields.push_all(read.issuer())?;
            put_tlv(&mut fields, 0x02, read.serial())?;
            put_tlv(out, 0x30, fields.as_slice())
        }
        Err(_) => unreachable!(),
    }
}

/// SignerInfo with these signed attributes and their signature.
#[tactic(auto, unfolding(crate::specs::Tokens::signer_info))]
pub fn signer_info(
    alloc: Global,
    kind: DigestKind,
    certificate: &[u8],
    signed: &[u8],
    signature: &[u8],
) -> Result<Octs, OutOfMemory>
    requires { IsObject layout.certificate certificate.now }
    ensures { IfOk result (λ o. o ≡ signer_info kind certificate.now signed.now signature.now) }
{
    let mut fields = element(alloc, 0x02, &[1])?;
    put_signer_name(alloc, &mut fields, certificate)?;
    put_digest_algorithm(alloc, &mut fields, kind)?;
    put_tlv(&mut fields, 0xA0, signed)?;
    put_algorithm(alloc, &mut fields)?;
    put_tlv(&mut fields, 0x04, signature)?;
    element(alloc, 0x30, fields.as_slice())
}

// SignedData with one certificate and one SignerInfo.
#[tactic(auto, unfolding(crate::specs::Tokens::signed_data))]
fn signed_data(
    alloc: Global,
    kind: DigestKind,
    info: &[u8],
    certificate: &[u8],
    signer: &[u8],
) -> Result<Octs, OutOfMemory>
    ensures { IfOk result (λ o. o ≡ signed_data kind info.now certificate.now signer.now) }
{
    let mut algorithms = Octs::new(alloc);
    put_digest_algorithm(alloc, &mut algorithms, kind)?;
    let mut fields = element(alloc, 0x02, &[3])?;
    put_tlv(&mut fields, 0x31, algorithms.as_slice())?;
    put_content(alloc, &mut fields, info)?;
    put_tlv(&mut fields, 0xA0, certificate)?;
    put_tlv(&mut fields, 0x31, signer)?;
    element(alloc, 0x30, fields.as_slice())
}

/// The token of TSTInfo, its signer's certificate and SignerInfo.
#[tactic(auto, unfolding(crate::specs::Tokens::token))]
pub fn token(
    alloc: Global,
    kind: DigestKind,
    info: &[u8],
    certificate: &[u8],
    signer: &[u8],
) -> Result<Octs, OutOfMemory>
    ensures { IfOk result (λ o. o ≡ token (signed_data kind info.now certificate.now signer.now)) }
{
    let mut fields = element(alloc, 0x06, KnownOid::SignedData.content())?;
    let data = signed_data(alloc, kind, info, certificate, signer)?;
    put_tlv(&mut fields, 0xA0, data.as_slice())?;
    element(alloc, 0x30, fields.as_slice())
}
