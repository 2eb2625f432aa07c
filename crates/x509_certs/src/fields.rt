//! Parts of certificates and CRLs by their places.

ghost use Rattle.std.specs.Prelude.{◌≡◌, IfSome};
ghost use Rattle.der_values.specs.Elements as said;
ghost use Rattle.der_values.specs.Rules.{nth, content_of};
ghost use Rattle.der_values.specs.Times.{IsInYears};
ghost use Rattle.x509_certs.specs.Lists.{is_tag};
ghost use Rattle.x509_certs.specs.Signed as signed;

use der_values::{element, part, seconds, with_tag};

/// The seconds since 1970 of the element of a number, if it is a time.
pub fn time(number: usize, content: &[u8]) -> Option<i64>
    ensures value { result ≡ signed.time_of (nth number content.now) }
    ensures range { IfSome result IsInYears }
{
    match element(number, content) {
        None => None,
        Some(tlv) => seconds(&tlv),
    }
}

/// The same of a time that has to stand; 0 where none does.
pub fn time_at(number: usize, content: &[u8]) -> i64
    ensures value { result ≡ signed.time_or_0 (nth number content.now) }
    ensures range { IsInYears result }
{
    match time(number, content) {
        None => 0,
        Some(seconds) => seconds,
    }
}

/// Whether the element of a number has this tag.
pub fn has_tag(tag: u8, number: usize, content: &[u8]) -> bool
    ensures { result ≡ is_tag tag (nth number content.now) }
{
    match element(number, content) {
        None => false,
        Some(tlv) => tlv.tag == tag,
    }
}

/// The OID of an AlgorithmIdentifier's content, or nothing where parameters stand.
pub fn algorithm_name<'a>(content: &'a [u8]) -> &'a [u8]
    ensures { result.now ≡ signed.algorithm_name content.now }
{
    match element(1, content) {
        None => part(0, content),
        Some(_) => &[],
    }
}

/// The bytes of a BIT STRING's content.
pub fn bit_bytes<'a>(content: &'a [u8]) -> &'a [u8]
    ensures { result.now ≡ signed.bit_bytes content.now }
{
    match content {
        [] => content,
        [_, bytes @ ..] => bytes,
    }
}

/// What the first element of a tag holds, or nothing.
pub fn tagged<'a>(tag: u8, content: &'a [u8]) -> &'a [u8]
    ensures { result.now ≡ content_of (said.tagged tag content.now) }
{
    match with_tag(tag, content) {
        None => &[],
        Some(tlv) => tlv.content,
    }
}

/// What the signed part of a certificate or CRL holds.
pub fn fields<'a>(whole: &'a [u8]) -> &'a [u8]
    ensures { result.now ≡ signed.fields whole.now }
{
    part(0, part(0, whole))
}
