//! The kinds of signatures, and the verdict on a signature of a kind.

ghost use Rattle.std.specs.Prelude.{◌≡◌, ◌↔◌, IsTrue, IfSome};
ghost use Rattle.algorithms.specs.SignatureKind.{Holds};

/// A kind of hash-based signatures.
#[derive(Clone, Copy, Debug, PartialEq, Eq)]
pub enum SignatureKind {
    /// HSS over LMS (RFC 8554).
    Hss,
    /// XMSS of one tree (RFC 8391).
    Xmss,
    /// XMSS^MT, of layers of trees (RFC 8391).
    XmssMt,
}

// The content octets of the object identifiers id-alg-hss-lms-hashsig, 1.2.840.113549.1.9.16.3.17
// (RFC 8708, section 3), and id-alg-xmss-hashsig and id-alg-xmssmt-hashsig, 1.3.6.1.5.5.7.6.34 and
// .35 (RFC 9802, section 3).
const HSS: [u8; 11] = [
    0x2A, 0x86, 0x48, 0x86, 0xF7, 0x0D, 0x01, 0x09, 0x10, 0x03, 0x11,
];

const XMSS: [u8; 8] = [0x2B, 0x06, 0x01, 0x05, 0x05, 0x07, 0x06, 0x22];

const XMSS_MT: [u8; 8] = [0x2B, 0x06, 0x01, 0x05, 0x05, 0x07, 0x06, 0x23];

impl SignatureKind {
    ghost use Rattle.algorithms.specs.SignatureKind.{oid_of, word_of};

    /// The word for the kind in policies and reports.
    pub fn word(self) -> &'static str
        ensures { result.now ≡ word_of self }
    {
        match self {
            SignatureKind::Hss => "hss",
            SignatureKind::Xmss => "xmss",
            SignatureKind::XmssMt => "xmssmt",
        }
    }

    /// The content octets of the kind's object identifier, which keys and signatures have alike.
    pub fn oid(self) -> &'static [u8]
        ensures { result.now ≡ oid_of self }
    {
        match self {
            SignatureKind::Hss => &HSS,
            SignatureKind::Xmss => &XMSS,
            SignatureKind::XmssMt => &XMSS_MT,
        }
    }

    /// The kind with this object identifier, given by its content octets.
    pub fn of_oid(oid: &[u8]) -> Option<SignatureKind>
        ensures named { IfSome result (λ kind. oid.now ≡ oid_of kind) }
        ensures each { (kind : SignatureKind) → oid.now ≡ oid_of kind → result ≡ Some kind }
    {
        if oid == SignatureKind::Hss.oid() {
            Some(SignatureKind::Hss)
        } else if oid == SignatureKind::Xmss.oid() {
            Some(SignatureKind::Xmss)
        } else if oid == SignatureKind::XmssMt.oid() {
            Some(SignatureKind::XmssMt)
        } else {
            None
        }
    }
}

/// Whether a signature of a kind holds for a message under a key, both as that kind writes them.
pub fn verify(kind: SignatureKind, key: &[u8], message: &[u8], signature: &[u8]) -> bool
    ensures { IsTrue result ↔ Holds kind key.now message.now signature.now }
{
    match kind {
        SignatureKind::Hss => {
            matches!(
                lms_verify::verify(key, message, signature),
                lms_verify::Verdict::Good
            )
        }
        SignatureKind::Xmss => {
            matches!(
                xmss_verify::verify(key, message, signature),
                xmss_verify::Verdict::Good
            )
        }
        SignatureKind::XmssMt => {
            matches!(
                xmssmt_verify::verify(key, message, signature),
                xmssmt_verify::Verdict::Good
            )
        }
    }
}
