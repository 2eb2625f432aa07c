//! Revocation lists: RFC 5280, 5.1 to 5.3.

ghost use Rattle.std.specs.Prelude.{◌≡◌, ◌<◌, ◌↔◌, length, IsOk, IfOk, IfErr, IfSome, MatchResult, Ok, Err, Some};
ghost use Rattle.std.specs.List.{list_any};
ghost use Rattle.der_values.specs.Elements as said;
ghost use Rattle.der_values.specs.Fits.{IsObject};
ghost use Rattle.der_values.specs.Layout.{read_object};
ghost use Rattle.der_values.specs.Times.{IsInYears};
ghost use Rattle.der_values.specs.View.{view};
ghost use Rattle.x509_certs.specs.Layouts as layout;
ghost use Rattle.x509_certs.specs.Lists as says;
ghost use Rattle.x509_certs.specs.Signed as signed;
ghost use Rattle.x509_certs.specs.View.{list_bytes};

use crate::extensions::any_critical;
use crate::fault::CertFault;
use crate::fields::{algorithm_name, bit_bytes, fields, has_tag, tagged, time, time_at};
use crate::layouts::REVOCATION_LIST;
use der_values::{Tlv, check, elements_of, part, piece};

/// A CRL of version 2, borrowed. Its parts are found anew at each call.
#[derive(Clone, Copy, Debug)]
pub struct Crl<'a> {
    whole: &'a [u8],
}

/// Reads bytes that are one whole CRL.
///
/// Ok exactly where they are one, with nothing behind it; else the place of the first bad element.
pub fn read_crl<'a>(bytes: &'a [u8]) -> Result<Crl<'a>, CertFault>
    ensures exact { IsOk result ↔ IsObject layout.revocation_list bytes.now }
    ensures ok { IfOk result (λ c. list_bytes c ≡ bytes.now) }
    ensures times { IfOk result (λ c. says.HasUpdate (list_bytes c)) }
    ensures judged { MatchResult result
        (λ c. read_object layout.revocation_list bytes.now ≡ Ok (length bytes.now))
        (λ fault. read_object layout.revocation_list bytes.now ≡ Err fault.at) }
    ensures place { IfErr result (λ fault. 0 < length bytes.now → fault.at < length bytes.now) }
{
    match check(&REVOCATION_LIST, bytes) {
        Ok(()) => Ok(Crl { whole: bytes }),
        Err(fault) => Err(CertFault { at: fault.at }),
    }
}

/// The CRL that bytes are which were read as one before. They aren't judged again.
pub fn whole_crl<'a>(bytes: &'a [u8]) -> Crl<'a>
    requires { IsObject layout.revocation_list bytes.now }
    ensures value { list_bytes result ≡ bytes.now }
    ensures times { says.HasUpdate (list_bytes result) }
{
    Crl { whole: bytes }
}

fn is_critical_entry(entry: &Tlv<'_>) -> bool
    ensures { result ≡ says.is_critical_entry (view entry.now) }
{
    any_critical(tagged(0x30, entry.content))
}

fn any_critical_entry(entries: &[u8]) -> bool
    ensures { result ≡ list_any says.is_critical_entry (said.elements entries.now) }
{
    elements_of(entries).any(|e| is_critical_entry(&e))
}

fn earlier(best: Option<i64>, date: i64) -> Option<i64>
    requires best { IfSome best IsInYears }
    requires date { IsInYears date }
    ensures value { result ≡ says.earlier best (Some date) }
    ensures range { IfSome result IsInYears }
{
    match best {
        None => Some(date),
        Some(before) => {
            if date < before {
                Some(date)
            } else {
                Some(before)
            }
        }
    }
}

// The best date so far, with one more entry.
fn with_entry(serial: &[u8], best: Option<i64>, entry: &Tlv<'_>) -> Option<i64>
    requires { IfSome best IsInYears }
    ensures range { IfSome result IsInYears }
    ensures value { result ≡ says.earlier best (says.earliest (says.dates_in serial.now (view entry.now))) }
{
    if part(0, entry.content) == serial {
        earlier(best, time_at(1, entry.content))
    } else {
        best
    }
}

fn earliest(serial: &[u8], entries: &[u8]) -> Option<i64>
    ensures range { IfSome result IsInYears }
    ensures value { result ≡ says.earliest (says.dates_of serial.now (said.elements entries.now)) }
{
    let mut best = None;
    for entry in elements_of(entries) {
        best = with_entry(serial, best, &entry);
    }
    best
}

impl<'a> Crl<'a> {
    /// All its bytes.
    pub fn whole(&self) -> &'a [u8]
        ensures { result.now ≡ list_bytes self.now }
    {
        self.whole
    }

    /// All bytes of tbsCertList, which the signature covers (RFC 5280, 5.1.1.1).
    pub fn tbs(&self) -> &'a [u8]
        ensures { result.now ≡ signed.tbs (list_bytes self.now) }
    {
        piece(0, part(0, self.whole))
    }

    /// All bytes of the issuer's Name (RFC 5280, 5.1.2.3).
    pub fn issuer(&self) -> &'a [u8]
        ensures { result.now ≡ says.list_issuer (list_bytes self.now) }
    {
        piece(2, fields(self.whole))
    }

    /// thisUpdate in seconds since 1970, in the years 0000 to 9999 (RFC 5280, 5.1.2.4).
    pub fn this_update(&self) -> i64
        ensures value { result ≡ says.this_update (list_bytes self.now) }
        ensures range { IsInYears result }
    {
        time_at(3, fields(self.whole))
    }

    /// nextUpdate in seconds since 1970, in the years 0000 to 9999, if it is given (RFC 5280, 5.1.2.5).
    pub fn next_update(&self) -> Option<i64>
        ensures value { result ≡ says.next_update (list_bytes self.now) }
        ensures range { IfSome result IsInYears }
    {
        time(4, fields(self.whole))
    }

    /// The content of the OID of the signature's algorithm; empty where parameters stand (RFC 5280, 5.1.1.2).
    pub fn sign_oid(&self) -> &'a [u8]
        ensures { result.now ≡ signed.sign_oid (list_bytes self.now) }
    {
        algorithm_name(part(1, part(0, self.whole)))
    }

    /// The bytes of the signature (RFC 5280, 5.1.1.3).
    pub fn signature(&self) -> &'a [u8]
        ensures { result.now ≡ signed.signature (list_bytes self.now) }
    {
        bit_bytes(part(2, part(0, self.whole)))
    }

    /// Whether neither the CRL nor one of its entries has a critical extension (RFC 5280, 5.2 and 5.3).
    pub fn usable(&self) -> bool
        ensures { result ≡ says.usable (list_bytes self.now) }
    {
        !any_critical(part(0, tagged(0xA0, fields(self.whole))))
            && !any_critical_entry(self.entries())
    }

    /// The earliest date at which an entry lists the serial, in seconds since 1970, in the years 0000 to 9999 (RFC 5280, 5.1.2.6).
    ///
    /// `serial` is the content of an INTEGER. An entry of any reason counts.
    pub fn revoked(&self, serial: &[u8]) -> Option<i64>
        ensures value { result ≡ says.revoked serial.now (list_bytes self.now) }
        ensures range { IfSome result IsInYears }
    {
        earliest(serial, self.entries())
    }

    fn entries(&self) -> &'a [u8]
        ensures { result.now ≡ says.entries (list_bytes self.now) }
    {
        let fields = fields(self.whole);
        if has_tag(0x30, 4, fields) {
            part(4, fields)
        } else if has_tag(0x30, 5, fields) {
            part(5, fields)
        } else {
            &[]
        }
    }
}
