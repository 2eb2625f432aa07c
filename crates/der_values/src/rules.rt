//! What an element has to be beyond its tag, and what tells one of two layouts.

ghost use Rattle.std.specs.Prelude.{◌≡◌, ◌≤◌, length};
ghost use Rattle.std.specs.Str.{bytes_eq};
ghost use Rattle.std.specs.Option.{option_map};
ghost use Rattle.der_values.specs.Rules as def;
ghost use Rattle.der_values.specs.Rules.{nth, content_of, whole_of, tag_of, bytes_of, is_digest, is_required};
ghost use Rattle.der_values.specs.View.{view};

use crate::elements::{has_named, stands_in};
use crate::kinds::{
    has_whole_bytes, is_minimal, is_object_identifier, is_part_of_thousand, is_small, is_truth,
    may_have_unused_bits,
};
use crate::oids::KnownOid;
use crate::times::{plain_seconds, seconds};
use crate::tlv::{Tlv, read_tlv};

/// What an element has to be beyond its tag.
#[derive(Clone, Copy, Debug, PartialEq, Eq)]
pub enum Rule {
    /// Any content.
    Any,
    /// An INTEGER that is minimal (X.690, 8.3.2).
    Integer,
    /// An OBJECT IDENTIFIER (X.690, 8.19).
    Oid,
    /// A BIT STRING of whole bytes (X.690, 8.6).
    BitString,
    /// A BIT STRING whose bits need not fill the last byte.
    NamedBits,
    /// 00 or FF (X.690, 11.1).
    Boolean,
    /// A BOOLEAN that is FALSE.
    False,
    /// A time without a fraction.
    Time,
    /// A time that may have a fraction.
    StampTime,
    /// An INTEGER of one byte.
    Number(u8),
    /// An INTEGER from 0 to 2^31 - 1.
    Count,
    /// An INTEGER from 1 to 999.
    Thousandth,
    /// This OBJECT IDENTIFIER.
    Named(KnownOid),
    /// The OID of one of the three digests.
    Digest,
    /// The same bytes as the element of this number in the first element of the content.
    SameAs(usize),
    /// No element before begins with the same element.
    NotTwice,
    /// The same for the signed attributes that have to stand.
    RequiredOnce,
}

/// What tells one of two layouts.
#[derive(Clone, Copy, Debug, PartialEq, Eq)]
pub enum Test {
    /// The next element has this tag byte.
    Tag(u8),
    /// Some element comes.
    Comes,
    /// The first element of the content is this OID.
    FirstIs(KnownOid),
    /// An element before begins with this OID.
    Has(KnownOid),
}

/// The element of a number in a content, from 0; `None` where the elements end before it.
#[tactic(auto, using(crate::proofs::Walks::nth_step, crate::proofs::Walks::nth_none, crate::proofs::Walks::nth_here))]
pub fn element<'a>(number: usize, bytes: &'a [u8]) -> Option<Tlv<'a>>
    ensures { option_map view result ≡ nth number bytes.now }
{
    let mut at = 0;
    for _ in 0..number {
        let Ok(tlv) = read_tlv(bytes, at) else {
            return None;
        };
        at += tlv.whole.len();
    }
    match read_tlv(bytes, at) {
        Ok(tlv) => Some(tlv),
        Err(_) => None,
    }
}

/// What the element of a number holds, or nothing.
pub fn part<'a>(number: usize, bytes: &'a [u8]) -> &'a [u8]
    ensures { result.now ≡ content_of (nth number bytes.now) }
{
    match element(number, bytes) {
        None => &[],
        Some(tlv) => tlv.content,
    }
}

/// All bytes of the element of a number, or none.
pub fn piece<'a>(number: usize, bytes: &'a [u8]) -> &'a [u8]
    ensures { result.now ≡ whole_of (nth number bytes.now) }
{
    match element(number, bytes) {
        None => &[],
        Some(tlv) => tlv.whole,
    }
}

fn is_known_digest(name: &[u8]) -> bool
    ensures { result ≡ is_digest name.now }
{
    name == [0x60, 0x86, 0x48, 0x01, 0x65, 0x03, 0x04, 0x02, 0x01].as_slice()
        || name == [0x60, 0x86, 0x48, 0x01, 0x65, 0x03, 0x04, 0x02, 0x02].as_slice()
        || name == [0x60, 0x86, 0x48, 0x01, 0x65, 0x03, 0x04, 0x02, 0x03].as_slice()
}

fn has_to_stand(name: &[u8]) -> bool
    ensures { result ≡ is_required name.now }
{
    name == KnownOid::ContentType.content()
        || name == KnownOid::MessageDigest.content()
        || name == KnownOid::SigningCertificate.content()
}

fn is_same_as(number: usize, before: &[u8], tlv: &Tlv<'_>) -> bool
    ensures { result ≡ bytes_eq tlv.now.whole.now (whole_of (nth number (content_of (nth 0 before.now)))) }
{
    tlv.whole == piece(number, part(0, before))
}

/// Whether an element meets the rule, behind these bytes of its content.
#[tactic(auto, unfolding(crate::specs::Rules::allows))]
pub(crate) fn allows(rule: Rule, before: &[u8], tlv: &Tlv<'_>) -> bool
    ensures { result ≡ def.allows rule before.now (view tlv.now) }
{
    match rule {
        Rule::Any => true,
        Rule::Integer => is_minimal(tlv.content),
        Rule::Oid => is_object_identifier(tlv.content),
        Rule::BitString => has_whole_bytes(tlv.content),
        Rule::NamedBits => may_have_unused_bits(tlv.content),
        Rule::Boolean => is_truth(tlv.content),
        Rule::False => tlv.content == [0].as_slice(),
        Rule::Time => plain_seconds(tlv).is_some(),
        Rule::StampTime => seconds(tlv).is_some(),
        Rule::Number(n) => tlv.content == [n].as_slice(),
        Rule::Count => is_small(tlv.content),
        Rule::Thousandth => is_part_of_thousand(tlv.content),
        Rule::Named(name) => tlv.content == name.content(),
        Rule::Digest => is_known_digest(tlv.content),
        Rule::SameAs(number) => is_same_as(number, before, tlv),
        Rule::NotTwice => !stands_in(tlv, before),
        Rule::RequiredOnce => !has_to_stand(part(0, tlv.content)) || !stands_in(tlv, before),
    }
}

/// Whether the first of two layouts is told.
#[tactic(auto, unfolding(crate::specs::Rules::decides))]
pub(crate) fn decides(test: Test, before: &[u8], rest: &[u8]) -> bool
    ensures { result ≡ def.decides test before.now (tag_of rest.now) }
{
    match test {
        Test::Tag(tag) => matches!(rest, [first, ..] if *first == tag),
        Test::Comes => matches!(rest, [_, ..]),
        Test::FirstIs(name) => part(0, before) == name.content(),
        Test::Has(name) => has_named(name.content(), before),
    }
}
