//! Why a token isn't sound.

use algorithms::Digest;
use xa_io::Octs;

/// Why a time-stamp token is refused. Where two digests differ, `got` is the computed one and `want` has the bytes of the token.
#[derive(Debug, Drop)]
pub enum TokenFault {
    /// The bytes are no token: `at` is the place of the first bad element. `check_token` never answers it.
    Shape { at: usize },
    /// The imprint isn't the covered digest (RFC 3161, 2.4.2).
    ImprintDiffers { got: Digest, want: Octs },
    /// messageDigest isn't the digest of the content's octets (RFC 5652, 11.2).
    ContentDigestDiffers { got: Digest, want: Octs },
    /// No certificate of the token has the issuer and the serial that SignerInfo names (RFC 5652, 5.3).
    NoSigner,
    /// The hash in signing-certificate-v2 isn't that of the signer's certificate (RFC 5035, 5).
    CertHashDiffers { got: Digest, want: Octs },
    /// The signer's certificate isn't one for stamping time (RFC 3161, 2.3).
    Purpose,
    /// The signature is of no known kind, or not of the kind of the signer's key.
    UnknownKind,
    /// The signature doesn't hold for the signed attributes under the signer's key (RFC 5652, 5.4).
    Fails,
    /// Memory for the bytes to be kept or for the signed text could not be had.
    OutOfMemory,
}
