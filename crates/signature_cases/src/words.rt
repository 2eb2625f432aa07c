//! Words for the soundness of a token.

ghost use Rattle.std.specs.Prelude.{◌≡◌};

/// Whether a token is sound over octets, or the first that makes it unsound (RFC 3161, sections 2.3 and 2.4.2).
#[derive(Clone, Copy)]
pub enum Soundness {
    /// It is sound.
    Sound,
    /// Its imprint isn't the digest of the octets.
    ImprintDiffers,
    /// Its message digest isn't that of its content (RFC 5652, section 11.2).
    ContentDigestDiffers,
    /// It has no certificate of its signer.
    NoSigner,
    /// The digest of its signing certificate is another one (RFC 5035, section 4).
    CertHashDiffers,
    /// Its signer's certificate isn't for time-stamping.
    Purpose,
    /// Its signature algorithm is unknown.
    UnknownKind,
    /// Its signature doesn't verify.
    Fails,
}

impl Soundness {
    ghost use Rattle.signature_evidence.specs.Soundness.{is_sound};
    ghost use Rattle.signature_cases.specs.Words.{soundness_in};

    /// Whether it is the word for a sound token.
    pub fn is_sound(&self) -> bool
        ensures { result ≡ is_sound (soundness_in self.now) }
    {
        matches!(self, Soundness::Sound)
    }
}
