//! The object identifiers that layouts tell apart.

ghost use Rattle.std.specs.Prelude.{◌≡◌};
ghost use Rattle.der_values.specs.Rules.{bytes_of};

/// An object identifier by its name.
#[derive(Clone, Copy, Debug, PartialEq, Eq)]
pub enum KnownOid {
    /// 2.5.29.19 (RFC 5280, 4.2.1.9).
    BasicConstraints,
    /// 2.5.29.15 (RFC 5280, 4.2.1.3).
    KeyUsage,
    /// 2.5.29.37 (RFC 5280, 4.2.1.12).
    ExtKeyUsage,
    /// 1.3.6.1.5.5.7.3.8 (RFC 3161, 2.3).
    TimeStamping,
    /// 1.2.840.113549.1.7.2 (RFC 5652, 5.1).
    SignedData,
    /// 1.2.840.113549.1.9.16.1.4 (RFC 3161, 2.4.2).
    TstInfo,
    /// 1.2.840.113549.1.9.3 (RFC 5652, 11.1).
    ContentType,
    /// 1.2.840.113549.1.9.4 (RFC 5652, 11.2).
    MessageDigest,
    /// 1.2.840.113549.1.9.16.2.47, signing-certificate-v2 (RFC 5035, 3).
    SigningCertificate,
}

impl KnownOid {
    /// The content of the OBJECT IDENTIFIER.
    pub fn content(self) -> &'static [u8]
        ensures { result.now ≡ bytes_of self }
    {
        match self {
            KnownOid::BasicConstraints => &[0x55, 0x1D, 0x13],
            KnownOid::KeyUsage => &[0x55, 0x1D, 0x0F],
            KnownOid::ExtKeyUsage => &[0x55, 0x1D, 0x25],
            KnownOid::TimeStamping => &[0x2B, 0x06, 0x01, 0x05, 0x05, 0x07, 0x03, 0x08],
            KnownOid::SignedData => &[0x2A, 0x86, 0x48, 0x86, 0xF7, 0x0D, 0x01, 0x07, 0x02],
            KnownOid::TstInfo => &[
                0x2A, 0x86, 0x48, 0x86, 0xF7, 0x0D, 0x01, 0x09, 0x10, 0x01, 0x04,
            ],
            KnownOid::ContentType => &[0x2A, 0x86, 0x48, 0x86, 0xF7, 0x0D, 0x01, 0x09, 0x03],
            KnownOid::MessageDigest => &[0x2A, 0x86, 0x48, 0x86, 0xF7, 0x0D, 0x01, 0x09, 0x04],
            KnownOid::SigningCertificate => &[
                0x2A, 0x86, 0x48, 0x86, 0xF7, 0x0D, 0x01, 0x09, 0x10, 0x02, 0x2F,
            ],
        }
    }
}
