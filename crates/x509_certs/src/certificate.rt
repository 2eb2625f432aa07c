//! Certificates: RFC 5280, 4.1 and 4.2.

ghost use Rattle.std.specs.Prelude.{◌≡◌, ◌<◌, ◌↔◌, length, IsOk, IfOk, IfErr, MatchResult, Ok, Err};
ghost use Rattle.der_values.specs.Fits.{IsObject};
ghost use Rattle.der_values.specs.Layout.{read_object};
ghost use Rattle.der_values.specs.Times.{IsInYears};
ghost use Rattle.x509_certs.specs.Certificates as says;
ghost use Rattle.x509_certs.specs.Layouts as layout;
ghost use Rattle.x509_certs.specs.Signed as signed;
ghost use Rattle.x509_certs.specs.View.{certificate_bytes};

use crate::extensions::{any_strange, is_true, value_of};
use crate::fault::CertFault;
use crate::fields::{algorithm_name, bit_bytes, fields, tagged, time_at};
use crate::layouts::CERTIFICATE;
use der_values::{KnownOid, check, count, has_octets, named, part, piece, with_tag};

// Bits of keyUsage (RFC 5280, 4.2.1.3).
const KEY_CERT_SIGN: u8 = 5;

const CRL_SIGN: u8 = 6;

/// A certificate of version 3, borrowed. Its parts are found anew at each call.
#[derive(Clone, Copy, Debug)]
pub struct Certificate<'a> {
    whole: &'a [u8],
}

/// Reads bytes that are one whole certificate.
///
/// Ok exactly where they are one, with nothing behind it; else the place of the first bad element.
pub fn read_certificate<'a>(bytes: &'a [u8]) -> Result<Certificate<'a>, CertFault>
    ensures exact { IsOk result ↔ IsObject layout.certificate bytes.now }
    ensures ok { IfOk result (λ c. certificate_bytes c ≡ bytes.now) }
    ensures times { IfOk result (λ c. says.HasTimes (certificate_bytes c)) }
    ensures judged { MatchResult result
        (λ c. read_object layout.certificate bytes.now ≡ Ok (length bytes.now))
        (λ fault. read_object layout.certificate bytes.now ≡ Err fault.at) }
    ensures place { IfErr result (λ fault. 0 < length bytes.now → fault.at < length bytes.now) }
{
    match check(&CERTIFICATE, bytes) {
        Ok(()) => Ok(Certificate { whole: bytes }),
        Err(fault) => Err(CertFault { at: fault.at }),
    }
}

/// The certificate that bytes are which were read as one before, or lie in an object that was. They aren't judged again.
pub fn whole_certificate<'a>(bytes: &'a [u8]) -> Certificate<'a>
    requires { IsObject layout.certificate bytes.now }
    ensures value { certificate_bytes result ≡ bytes.now }
    ensures times { says.HasTimes (certificate_bytes result) }
{
    Certificate { whole: bytes }
}

// Whether a bit of the first byte lies in the string and is set (X.690, 8.6.2).
fn has_bit(bit: u8, content: &[u8]) -> bool
    requires { bit < 8 }
    ensures { result ≡ says.has_bit bit content.now }
{
    match content {
        [unused, first, rest @ ..] => {
            let lies_in_string = (bit as usize + *unused as usize) / 8 <= rest.len();
            lies_in_string && *first & (1 << (7 - bit)) != 0
        }
        _ => false,
    }
}

impl<'a> Certificate<'a> {
    /// All its bytes.
    pub fn whole(&self) -> &'a [u8]
        ensures { result.now ≡ certificate_bytes self.now }
    {
        self.whole
    }

    /// All bytes of tbsCertificate, which the signature covers (RFC 5280, 4.1.1.1).
    pub fn tbs(&self) -> &'a [u8]
        ensures { result.now ≡ signed.tbs (certificate_bytes self.now) }
    {
        piece(0, part(0, self.whole))
    }

    /// The content of the serial number, an INTEGER (RFC 5280, 4.1.2.2).
    pub fn serial(&self) -> &'a [u8]
        ensures { result.now ≡ says.serial (certificate_bytes self.now) }
    {
        part(1, fields(self.whole))
    }

    /// All bytes of the issuer's Name (RFC 5280, 4.1.2.4).
    pub fn issuer(&self) -> &'a [u8]
        ensures { result.now ≡ says.issuer (certificate_bytes self.now) }
    {
        piece(3, fields(self.whole))
    }

    /// All bytes of the subject's Name (RFC 5280, 4.1.2.6).
    pub fn subject(&self) -> &'a [u8]
        ensures { result.now ≡ says.subject (certificate_bytes self.now) }
    {
        piece(5, fields(self.whole))
    }

    /// The first second of validity, since 1970, in the years 0000 to 9999 (RFC 5280, 4.1.2.5).
    pub fn not_before(&self) -> i64
        ensures value { result ≡ says.not_before (certificate_bytes self.now) }
        ensures range { IsInYears result }
    {
        time_at(0, part(4, fields(self.whole)))
    }

    /// The last second of validity, since 1970, in the years 0000 to 9999 (RFC 5280, 4.1.2.5).
    pub fn not_after(&self) -> i64
        ensures value { result ≡ says.not_after (certificate_bytes self.now) }
        ensures range { IsInYears result }
    {
        time_at(1, part(4, fields(self.whole)))
    }

    /// The content of the OID of the key's algorithm; empty where parameters stand (RFC 5280, 4.1.2.7).
    pub fn key_oid(&self) -> &'a [u8]
        ensures { result.now ≡ says.key_oid (certificate_bytes self.now) }
    {
        algorithm_name(part(0, part(6, fields(self.whole))))
    }

    /// The bytes of the key, as they stand in the BIT STRING (RFC 9802).
    pub fn key(&self) -> &'a [u8]
        ensures { result.now ≡ says.key (certificate_bytes self.now) }
    {
        bit_bytes(part(1, part(6, fields(self.whole))))
    }

    /// The content of the OID of the signature's algorithm; empty where parameters stand (RFC 5280, 4.1.1.2).
    pub fn sign_oid(&self) -> &'a [u8]
        ensures { result.now ≡ signed.sign_oid (certificate_bytes self.now) }
    {
        algorithm_name(part(1, part(0, self.whole)))
    }

    /// The bytes of the signature (RFC 5280, 4.1.1.3).
    pub fn signature(&self) -> &'a [u8]
        ensures { result.now ≡ signed.signature (certificate_bytes self.now) }
    {
        bit_bytes(part(2, part(0, self.whole)))
    }

    /// Whether basicConstraints says that this is a CA (RFC 5280, 4.2.1.9).
    pub fn is_ca(&self) -> bool
        ensures { result ≡ says.is_ca (certificate_bytes self.now) }
    {
        is_true(value_of(KnownOid::BasicConstraints, self.extensions()))
    }

    /// pathLenConstraint of basicConstraints, where it is given (RFC 5280, 4.2.1.9).
    pub fn path_len(&self) -> Option<u32>
        ensures { result ≡ says.path_len (certificate_bytes self.now) }
    {
        let constraints = value_of(KnownOid::BasicConstraints, self.extensions());
        match with_tag(0x02, constraints) {
            None => None,
            Some(tlv) => count(tlv.content),
        }
    }

    /// Whether the key may sign certificates: keyCertSign, which counts as set where there is no keyUsage (RFC 5280, 4.2.1.3).
    pub fn signs_certs(&self) -> bool
        ensures { result ≡ says.signs_certs (certificate_bytes self.now) }
    {
        self.may(KEY_CERT_SIGN)
    }

    /// Whether the key may sign CRLs: cRLSign, set too where there is no keyUsage (RFC 5280, 4.2.1.3).
    pub fn signs_crls(&self) -> bool
        ensures { result ≡ says.signs_crls (certificate_bytes self.now) }
    {
        self.may(CRL_SIGN)
    }

    /// Whether extKeyUsage holds id-kp-timeStamping (RFC 5280, 4.2.1.12).
    pub fn stamps_time(&self) -> bool
        ensures { result ≡ says.stamps_time (certificate_bytes self.now) }
    {
        has_octets(
            KnownOid::TimeStamping.content(),
            value_of(KnownOid::ExtKeyUsage, self.extensions()),
        )
    }

    /// Whether some extension is critical that is none of basicConstraints, keyUsage and extKeyUsage (RFC 5280, 4.2).
    pub fn strange(&self) -> bool
        ensures { result ≡ says.strange (certificate_bytes self.now) }
    {
        any_strange(self.extensions())
    }

    fn extensions(&self) -> &'a [u8]
        ensures { result.now ≡ says.extensions (certificate_bytes self.now) }
    {
        part(0, tagged(0xA3, fields(self.whole)))
    }

    fn may(&self, bit: u8) -> bool
        requires { bit < 8 }
        ensures { result ≡ says.may bit (certificate_bytes self.now) }
    {
        match named(KnownOid::KeyUsage.content(), self.extensions()) {
            None => true,
            Some(_) => has_bit(bit, value_of(KnownOid::KeyUsage, self.extensions())),
        }
    }
}
