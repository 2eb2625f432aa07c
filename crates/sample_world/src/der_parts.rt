//! The parts that certificates, CRLs and tokens have alike (RFC 5280, sections 4.1 and 5.1).

ghost use Rattle.std.specs.Prelude.{◌≡◌, ◌++◌, ◌∷◌, ◌<◌, ◌^◌, IfOk, OnOk};
ghost use Rattle.xa_io.specs.Tlv.{tlv};
ghost use Rattle.sample_world.specs.Parts.{integer, bit_string, algorithm, name, signed_object};

use algorithms::SignatureKind;
use itoa::Buffer;
use std::alloc::Global;
use xa_io::{Octs, OutOfMemory, put_tlv};

// The content octets of id-at-commonName, 2.5.4.3 (RFC 5280, appendix A.1).
const COMMON_NAME: [u8; 3] = [0x55, 0x04, 0x03];

/// An element of a tag with this content.
pub fn element(alloc: Global, tag: u8, content: &[u8]) -> Result<Octs, OutOfMemory>
    ensures { IfOk result (λ o. o ≡ tlv tag content.now) }
{
    let mut out = Octs::new(alloc);
    put_tlv(&mut out, tag, content)?;
    Ok(out)
}

/// Appends an INTEGER.
#[tactic(auto, unfolding(crate::specs::Parts::integer_content))]
pub fn put_integer(out: &mut Octs, number: u32) -> Result<(), OutOfMemory>
    requires { number < 2 ^ 31 }
    ensures { OnOk result (out.new ≡ out.old ++ integer number) }
{
    if number < 0x80 {
        put_tlv(out, 0x02, &[number as u8])
    } else if number < 0x8000 {
        put_tlv(out, 0x02, &[(number / 0x100) as u8, (number % 0x100) as u8])
    } else if number < 0x800000 {
        let octets = [
            (number / 0x10000) as u8,
            (number / 0x100 % 0x100) as u8,
            (number % 0x100) as u8,
        ];
        put_tlv(out, 0x02, &octets)
    } else {
        let octets = [
            (number / 0x1000000) as u8,
            (number / 0x10000 % 0x100) as u8,
            (number / 0x100 % 0x100) as u8,
            (number % 0x100) as u8,
        ];
        put_tlv(out, 0x02, &octets)
    }
}

/// Appends a BIT STRING of whole octets.
pub fn put_bit_string(alloc: Global, out: &mut Octs, octets: &[u8]) -> Result<(), OutOfMemory>
    ensures { OnOk result (out.new ≡ out.old ++ bit_string octets.now) }
{
    let mut content = Octs::new(alloc);
    content.push_all(&[0])?;
    content.push_all(octets)?;
    put_tlv(out, 0x03, content.as_slice())
}

/// Appends the AlgorithmIdentifier of HSS, which has no parameters (RFC 8708, section 3).
#[tactic(auto, unfolding(crate::specs::Parts::algorithm))]
pub fn put_algorithm(alloc: Global, out: &mut Octs) -> Result<(), OutOfMemory>
    ensures { OnOk result (out.new ≡ out.old ++ algorithm) }
{
    let oid = element(alloc, 0x06, SignatureKind::Hss.oid())?;
    put_tlv(out, 0x30, oid.as_slice())
}

/// Appends the name of a key.
#[tactic(auto, unfolding(crate::specs::Parts::name))]
pub fn put_name(alloc: Global, out: &mut Octs, key: u32) -> Result<(), OutOfMemory>
    ensures { OnOk result (out.new ≡ out.old ++ name key) }
{
    let mut number = Buffer::new();
    let mut text = Octs::new(alloc);
    text.push_all(b"K")?;
    text.push_all(number.format(key).as_bytes())?;
    let mut attribute = element(alloc, 0x06, &COMMON_NAME)?;
    put_tlv(&mut attribute, 0x0C, text.as_slice())?;
    let attribute = element(alloc, 0x30, attribute.as_slice())?;
    let set = element(alloc, 0x31, attribute.as_slice())?;
    put_tlv(out, 0x30, set.as_slice())
}

/// The object of what is signed and its signature by HSS.
#[tactic(auto, unfolding(crate::specs::Parts::signed_object))]
pub fn signed_object(
    alloc: Global,
    to_be_signed: &[u8],
    signature: &[u8],
) -> Result<Octs, OutOfMemory>
    ensures { IfOk result (λ o. o ≡ signed_object to_be_signed.now signature.now) }
{
    let mut content = Octs::new(alloc);
    content.push_all(to_be_signed)?;
    put_algorithm(alloc, &mut content)?;
    put_bit_string(alloc, &mut content, signature)?;
    element(alloc, 0x30, content.as_slice())
}
