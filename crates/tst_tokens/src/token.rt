//! Tokens: RFC 3161, 2.4.2, in SignedData of RFC 5652.

ghost use Rattle.std.specs.Prelude.{◌≡◌, ◌<◌, ◌↔◌, length, find, filter, map, slice_get, IsOk, IfOk, IfErr, MatchResult, Ok, Err};
ghost use Rattle.std.specs.Option.{option_map};
ghost use Rattle.der_values.specs.Elements as said;
ghost use Rattle.der_values.specs.Elements.{elements};
ghost use Rattle.der_values.specs.Rules.{content_of, bytes_of};
ghost use Rattle.der_values.specs.Fits.{IsObject};
ghost use Rattle.der_values.specs.Layout.{read_object};
ghost use Rattle.der_values.specs.Times.{IsInYears};
ghost use Rattle.tst_tokens.specs.Layouts as layout;
ghost use Rattle.tst_tokens.specs.Digests as names;
ghost use Rattle.tst_tokens.specs.Sound as sound;
ghost use Rattle.tst_tokens.specs.Tokens as says;
ghost use Rattle.tst_tokens.specs.View.{token_bytes, certificates_left};
ghost use Rattle.tst_tokens.specs.Whole.{HasTime};
ghost use Rattle.x509_certs.specs.Signed as signed;
ghost use Rattle.x509_certs.specs.View.{certificate_bytes};

use crate::certificates::{Certificates, certificates_in};
use crate::digests::kind_named;
use crate::layouts::TOKEN;
use crate::numbers::seconds_of_accuracy;
use algorithms::DigestKind;
use der_values::{KnownOid, check, elements_of, part, piece};
use x509_certs::{
    CertFault, Certificate, algorithm_name, first_named, has_tag, read_certificate, tagged, time_at,
};

/// A time-stamp token, borrowed. Its parts are found anew at each call.
#[derive(Clone, Copy, Debug)]
pub struct Token<'a> {
    whole: &'a [u8],
}

/// Reads bytes that are one whole token.
///
/// Ok exactly where they are one, with nothing behind it; else the place of the first bad element, also where that is inside a
/// certificate of the token.
pub fn read_token<'a>(bytes: &'a [u8]) -> Result<Token<'a>, CertFault>
    ensures exact { IsOk result ↔ IsObject layout.token bytes.now }
    ensures ok { IfOk result (λ t. token_bytes t ≡ bytes.now) }
    ensures time { IfOk result (λ t. HasTime (token_bytes t)) }
    ensures judged { MatchResult result
        (λ t. read_object layout.token bytes.now ≡ Ok (length bytes.now))
        (λ fault. read_object layout.token bytes.now ≡ Err fault.at) }
    ensures place { IfErr result (λ fault. 0 < length bytes.now → fault.at < length bytes.now) }
{
    match check(&TOKEN, bytes) {
        Ok(()) => Ok(Token { whole: bytes }),
        Err(fault) => Err(CertFault { at: fault.at }),
    }
}

/// The token that bytes are which were read as one before. They aren't judged again.
pub fn whole_token<'a>(bytes: &'a [u8]) -> Token<'a>
    requires { IsObject layout.token bytes.now }
    ensures value { token_bytes result ≡ bytes.now }
    ensures time { HasTime (token_bytes result) }
{
    Token { whole: bytes }
}

// The certificate of a number among these elements, from 0.
fn nth_certificate<'a>(number: usize, listed: &'a [u8]) -> Option<Certificate<'a>>
    ensures { option_map certificate_bytes result ≡ option_map (λ e. e.whole) (slice_get (filter says.is_certificate (elements listed.now)) number) }
{
    let mut before = number;
    for entry in elements_of(listed) {
        if let Ok(certificate) = read_certificate(entry.whole) {
            if before == 0 {
                return Some(certificate);
            }
            before -= 1;
        }
    }
    None
}

// The first certificate of this issuer with this serial.
fn of_issuer<'a>(issuer: &[u8], serial: &[u8], listed: &'a [u8]) -> Option<Certificate<'a>>
    ensures { option_map certificate_bytes result ≡ option_map (λ e. e.whole) (find (says.has_names issuer.now serial.now) (filter says.is_certificate (elements listed.now))) }
{
    for entry in elements_of(listed) {
        if let Ok(certificate) = read_certificate(entry.whole) {
            if certificate.issuer() == issuer && certificate.serial() == serial {
                return Some(certificate);
            }
        }
    }
    None
}

// The value of the signed attribute with this name, among these attributes.
fn attribute<'a>(name: KnownOid, attributes: &'a [u8]) -> &'a [u8]
    ensures { result.now ≡ signed.part 1 (content_of (said.first_named (bytes_of name) attributes.now)) }
{
    part(1, first_named(name, attributes))
}

impl<'a> Token<'a> {
    /// The kind of the imprint's digest (RFC 3161, 2.4.2).
    pub fn imprint_kind(&self) -> DigestKind
        ensures { result ≡ names.imprint_kind (token_bytes self.now) }
    {
        kind_named(part(0, part(0, part(2, self.stamp_info()))))
    }

    /// The kind of the digest of the content's octets (RFC 5652, 5.3).
    pub fn content_kind(&self) -> DigestKind
        ensures { result ≡ names.content_kind (token_bytes self.now) }
    {
        kind_named(part(0, part(2, self.signer_info())))
    }

    /// The kind of the certificate hash in signing-certificate-v2; SHA-256 where none is named (RFC 5035, 4).
    pub fn cert_hash_kind(&self) -> DigestKind
        ensures { result ≡ names.cert_hash_kind (token_bytes self.now) }
    {
        let id = self.certificate_id();
        if has_tag(0x30, 0, id) {
            kind_named(part(0, part(0, id)))
        } else {
            DigestKind::Sha256
        }
    }

    // The digest in the imprint.
    pub(crate) fn imprint(&self) -> &'a [u8]
        ensures { result.now ≡ names.imprint (token_bytes self.now) }
    {
        part(1, part(2, self.stamp_info()))
    }

    // The digest in messageDigest.
    pub(crate) fn message_digest(&self) -> &'a [u8]
        ensures { result.now ≡ names.message_digest (token_bytes self.now) }
    {
        let attributes = part(3, self.signer_info());
        part(0, attribute(KnownOid::MessageDigest, attributes))
    }

    // The hash in signing-certificate-v2.
    pub(crate) fn cert_hash(&self) -> &'a [u8]
        ensures { result.now ≡ names.cert_hash (token_bytes self.now) }
    {
        tagged(0x04, self.certificate_id())
    }

    fn certificate_id(&self) -> &'a [u8]
        ensures { result.now ≡ names.certificate_id (token_bytes self.now) }
    {
        let attributes = part(3, self.signer_info());
        let value = attribute(KnownOid::SigningCertificate, attributes);
        part(0, part(0, part(0, value)))
    }

    /// genTime in seconds since 1970, in the years 0000 to 9999; a fraction is rounded up (RFC 3161, 2.4.2).
    pub fn gen_time(&self) -> i64
        ensures value { result ≡ says.gen_time (token_bytes self.now) }
        ensures range { IsInYears result }
    {
        time_at(4, self.stamp_info())
    }

    /// The accuracy in seconds, rounded up; 0 where there is none (RFC 3161, 2.4.2).
    pub fn accuracy(&self) -> u32
        ensures { result ≡ says.accuracy (token_bytes self.now) }
    {
        let info = self.stamp_info();
        if has_tag(0x30, 5, info) {
            seconds_of_accuracy(part(5, info))
        } else {
            0
        }
    }

    /// The content of the OID of the signature's algorithm; empty where parameters stand (RFC 5652, 5.3).
    pub fn sign_oid(&self) -> &'a [u8]
        ensures { result.now ≡ says.sign_oid (token_bytes self.now) }
    {
        algorithm_name(part(4, self.signer_info()))
    }

    /// The signer's certificate: the first of the token that has the issuer's bytes and the serial of the SignerInfo.
    pub fn signer(&self) -> Option<Certificate<'a>>
        ensures { option_map certificate_bytes result ≡ option_map (λ e. e.whole) (says.signer_of (token_bytes self.now)) }
    {
        let named = part(1, self.signer_info());
        of_issuer(piece(0, named), part(1, named), self.certificates_field())
    }

    /// The certificates of the token, in their order. Elements among them that are none are passed over.
    pub fn certificates(&self) -> Certificates<'a>
        ensures { certificates_left result ≡ map (λ e. e.whole) (says.certificates_of (token_bytes self.now)) }
    {
        certificates_in(self.certificates_field())
    }

    /// The certificate of a number in the token, from 0; `None` where there are no more. All before it are judged at each call: to list
    /// them take `certificates`.
    pub fn certificate(&self, number: usize) -> Option<Certificate<'a>>
        ensures { option_map certificate_bytes result ≡ option_map (λ e. e.whole) (slice_get (says.certificates_of (token_bytes self.now)) number) }
    {
        nth_certificate(number, self.certificates_field())
    }

    fn signed_data(&self) -> &'a [u8]
        ensures { result.now ≡ says.signed_data (token_bytes self.now) }
    {
        part(0, part(1, part(0, self.whole)))
    }

    fn certificates_field(&self) -> &'a [u8]
        ensures { result.now ≡ says.certificates_field (token_bytes self.now) }
    {
        tagged(0xA0, self.signed_data())
    }

    pub(crate) fn content_octets(&self) -> &'a [u8]
        ensures { result.now ≡ says.content_octets (token_bytes self.now) }
    {
        part(0, part(1, part(2, self.signed_data())))
    }

    fn stamp_info(&self) -> &'a [u8]
        ensures { result.now ≡ says.stamp_info (token_bytes self.now) }
    {
        part(0, self.content_octets())
    }

    fn signers(&self) -> &'a [u8]
        ensures { result.now ≡ says.signers (token_bytes self.now) }
    {
        let signed = self.signed_data();
        if has_tag(0x31, 3, signed) {
            part(3, signed)
        } else if has_tag(0x31, 4, signed) {
            part(4, signed)
        } else {
            part(5, signed)
        }
    }

    fn signer_info(&self) -> &'a [u8]
        ensures { result.now ≡ says.signer_info (token_bytes self.now) }
    {
        part(0, self.signers())
    }

    // All bytes of the element [0] that holds the signed attributes.
    pub(crate) fn signed_attributes(&self) -> &'a [u8]
        ensures { result.now ≡ signed.piece 3 (says.signer_info (token_bytes self.now)) }
    {
        piece(3, self.signer_info())
    }

    pub(crate) fn signature(&self) -> &'a [u8]
        ensures { result.now ≡ sound.signature (token_bytes self.now) }
    {
        part(5, self.signer_info())
    }
}
