//! Why an item of a command is refused.

ghost use Rattle.std.specs.Prelude.{◌≡◌};

use algorithms::Digest;
use signature_shape::What;
use tst_tokens::TokenFault;
use xa_io::Octs;

/// Why an item of a command is refused. `k` is the number of a Reference, from 1; 0 stands for the command's own identifier. `at` is the
/// place of an element's first byte in the document, from 0. Times are in seconds since 1970.
#[derive(Debug, Drop)]
pub enum Code {
    /// A1: the document has no signature.
    NoSignature,
    /// A2: it has several, those inside another one aside; to be prepared it may have none.
    Several,
    /// A3: the shape of the signature is broken in a line, at an element.
    Shape { at: u32, what: What },
    /// A4: a time-stamp has an `Include`.
    Include { at: u32 },
    /// A5: the text of an element isn't base64 of one whole certificate, CRL or token.
    PropertyData { at: u32 },
    /// A6: no element has the identifier.
    TargetMissing { k: u32 },
    /// A7: more than one attribute is the identifier.
    TargetTwice { k: u32 },
    /// A8: the transforms are no chain.
    Chain { k: u32 },
    /// A9: the digest algorithm is unknown.
    DigestName { k: u32 },
    /// A10: no octets are handed in for an external Reference.
    External { k: u32 },
    /// A11: the text that is decoded isn't base64; `at` counts its characters without white space.
    Base64 { k: u32, at: u32 },
    /// A12: the Reference covers a place at which something is to be put in.
    SelfCover { k: u32 },
    /// A13: the signature has a value.
    AlreadySigned,
    /// A14: the signature has no value.
    NotSigned,
    /// A15: the octets of a Reference have another digest than it tells: `got` is theirs, `want` what it tells.
    DigestDiffers { k: u32, got: Digest, want: Octs },
    /// A16: no certificate of `KeyInfo` has the digest of the signing certificate.
    CertificateDiffers,
    /// A17: the policy doesn't list the signature method.
    UnknownMethod,
    /// A18: the key of the signing certificate is of another kind than the signature method.
    KeyKind,
    /// A19: the signature value doesn't verify.
    ValueFails,
    /// A20: the octets are no time-stamp token that is sound over what it would cover (RFC 3161, section 2.4.2).
    Token(TokenFault),
    /// A21: the token's time is after the moment.
    FromFuture { gen_time: i64, moment: i64 },
    /// A22: a time-stamp that the token would cover has a later time: `earlier` is that of the first such.
    TimeOrder { gen_time: i64, earlier: i64 },
    /// A23: the signature has a time-stamp on the archive, behind which none on the signature is put.
    AfterArchive,
    /// A24: the signature has no time-stamp on the signature.
    NotStamped,
    /// A25: the octets aren't whole certificates and revocation lists; `at` is the place of the first bad element in them, from 0.
    MaterialShape { at: u32 },
    /// A26: there are no octets.
    MaterialEmpty,
    /// A27: the certificate of who made it has no complete walk to an anchor: 0 is the signer, else the number of the token, from 1.
    NotComplete { object: u32 },
    /// A28: the new document passes a limit on bytes, depth, nodes or objects.
    TooLarge,
    /// A29: an identifier that the signature would have is in the document.
    IdTaken,
}

impl Code {
    ghost use Rattle.signature_checks.specs.Codes.{code_number};

    /// The number of the code.
    pub fn number(&self) -> u8
        ensures { result ≡ code_number self.now }
    {
        match self {
            Code::NoSignature => 1,
            Code::Several => 2,
            Code::Shape { .. } => 3,
            Code::Include { .. } => 4,
            Code::PropertyData { .. } => 5,
            Code::TargetMissing { .. } => 6,
            Code::TargetTwice { .. } => 7,
            Code::Chain { .. } => 8,
            Code::DigestName { .. } => 9,
            Code::External { .. } => 10,
            Code::Base64 { .. } => 11,
            Code::SelfCover { .. } => 12,
            Code::AlreadySigned => 13,
            Code::NotSigned => 14,
            Code::DigestDiffers { .. } => 15,
            Code::CertificateDiffers => 16,
            Code::UnknownMethod => 17,
            Code::KeyKind => 18,
            Code::ValueFails => 19,
            Code::Token(_) => 20,
            Code::FromFuture { .. } => 21,
            Code::TimeOrder { .. } => 22,
            Code::AfterArchive => 23,
            Code::NotStamped => 24,
            Code::MaterialShape { .. } => 25,
            Code::MaterialEmpty => 26,
            Code::NotComplete { .. } => 27,
            Code::TooLarge => 28,
            Code::IdTaken => 29,
        }
    }
}
