// DER elements, written.
ghost use Rattle.std.specs.Prelude.{◌≡◌, ◌++◌, ◌≤◌, length, take, drop, OnOk, OnErr};
ghost use Rattle.xa_io.specs.Tlv.{tlv, length_octets, leading_zeros_of};

use crate::octs::{Octs, OutOfMemory};

// How many zeros stand in front.
fn leading_zeros(bytes: &[u8]) -> usize
    ensures zeros { result ≡ leading_zeros_of bytes.now }
    ensures within { result ≤ length bytes.now }
{
    let mut count = 0;
    for byte in bytes {
        if *byte != 0 {
            return count;
        }
        count += 1;
    }
    count
}

// Appends the length of a content.
#[tactic(auto, unfolding(crate::specs::Tlv::length_octets))]
fn put_length(out: &mut Octs, size: u64) -> Result<(), OutOfMemory>
    ensures ok { OnOk result (out.new ≡ out.old ++ length_octets size) }
    ensures err { OnErr result (take (length out.old) out.new ≡ out.old) }
{
    if size < 128 {
        return out.push_all(&[size as u8]);
    }
    let bytes = size.to_be_bytes();
    let digits = &bytes[leading_zeros(&bytes)..];
    out.push_all(&[128 + digits.len() as u8])?;
    out.push_all(digits)
}

// Appends an element, or a first part of it.
#[tactic(auto, unfolding(crate::specs::Tlv::tlv))]
fn put_parts(out: &mut Octs, tag: u8, content: &[u8]) -> Result<(), OutOfMemory>
    ensures ok { OnOk result (out.new ≡ out.old ++ tlv tag content.now) }
    ensures err { OnErr result (take (length out.old) out.new ≡ out.old) }
{
    out.push_all(&[tag])?;
    put_length(out, content.len() as u64)?;
    out.push_all(content)
}

/// Appends a DER element: its tag, its length in the definite form and in the fewest bytes, and its content (X.690, 8.1
/// and 10.1). After `OutOfMemory` the list is as before.
pub fn put_tlv(out: &mut Octs, tag: u8, content: &[u8]) -> Result<(), OutOfMemory>
    ensures ok { OnOk result (out.new ≡ out.old ++ tlv tag content.now) }
    ensures err { OnErr result (out.new ≡ out.old) }
{
    let start = out.len();
    match put_parts(out, tag, content) {
        Ok(()) => Ok(()),
        Err(OutOfMemory) => {
            out.truncate(start);
            Err(OutOfMemory)
        }
    }
}
