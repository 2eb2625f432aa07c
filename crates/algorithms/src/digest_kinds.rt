//! The kinds of digests and their names.

ghost use Rattle.std.specs.Prelude.{◌≡◌, IfSome};

/// A hash function of SHA-2 (FIPS 180-4).
#[derive(Clone, Copy, Debug, PartialEq, Eq)]
pub enum DigestKind {
    Sha256,
    Sha384,
    Sha512,
}

// The content octets of the object identifiers 2.16.840.1.101.3.4.2.1 to .3 (RFC 5754, section 2).
const SHA_256: [u8; 9] = [0x60, 0x86, 0x48, 0x01, 0x65, 0x03, 0x04, 0x02, 0x01];

const SHA_384: [u8; 9] = [0x60, 0x86, 0x48, 0x01, 0x65, 0x03, 0x04, 0x02, 0x02];

const SHA_512: [u8; 9] = [0x60, 0x86, 0x48, 0x01, 0x65, 0x03, 0x04, 0x02, 0x03];

impl DigestKind {
    ghost use Rattle.algorithms.specs.DigestKind.{uri_of, oid_of, word_of};

    /// The URI that names the kind in a DigestMethod (XML Encryption 5.7, RFC 9231 2.1).
    pub fn uri(self) -> &'static str
        ensures { result.now ≡ uri_of self }
    {
        match self {
            DigestKind::Sha256 => "http://www.w3.org/2001/04/xmlenc#sha256",
            DigestKind::Sha384 => "http://www.w3.org/2001/04/xmldsig-more#sha384",
            DigestKind::Sha512 => "http://www.w3.org/2001/04/xmlenc#sha512",
        }
    }

    /// The content octets of the kind's object identifier.
    pub fn oid(self) -> &'static [u8]
        ensures { result.now ≡ oid_of self }
    {
        match self {
            DigestKind::Sha256 => &SHA_256,
            DigestKind::Sha384 => &SHA_384,
            DigestKind::Sha512 => &SHA_512,
        }
    }

    /// The word for the kind in policies and reports.
    pub fn word(self) -> &'static str
        ensures { result.now ≡ word_of self }
    {
        match self {
            DigestKind::Sha256 => "sha256",
            DigestKind::Sha384 => "sha384",
            DigestKind::Sha512 => "sha512",
        }
    }

    /// The kind with this object identifier, given by its content octets.
    pub fn of_oid(oid: &[u8]) -> Option<DigestKind>
        ensures named { IfSome result (λ kind. oid.now ≡ oid_of kind) }
        ensures each { (kind : DigestKind) → oid.now ≡ oid_of kind → result ≡ Some kind }
    {
        if oid == DigestKind::Sha256.oid() {
            Some(DigestKind::Sha256)
        } else if oid == DigestKind::Sha384.oid() {
            Some(DigestKind::Sha384)
        } else if oid == DigestKind::Sha512.oid() {
            Some(DigestKind::Sha512)
        } else {
            None
        }
    }
}
