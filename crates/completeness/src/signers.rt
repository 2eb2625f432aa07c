//! The signers of parts in memory.

ghost use Rattle.std.specs.Prelude.{◌≡◌, option_and_then, slice_get};
ghost use Rattle.std.specs.List.{position};
ghost use Rattle.std.specs.Option.{option_copied};
ghost use Rattle.acceptance.specs.Objects.{token_of};
ghost use Rattle.der_values.specs.Fits.{IsObject};
ghost use Rattle.qualifying_props.specs.Digests.{has_digest};
ghost use Rattle.tst_tokens.specs.Layouts as layout;

use qualifying_props::SignatureParts;
use tst_tokens::whole_token;

/// The certificate of a token's signer; none where it isn't in the token (RFC 3161, section 2.4.2).
#[tactic(auto, unfolding(acceptance::specs::Objects::token_of))]
pub(crate) fn signer_of<'a>(token: &'a [u8]) -> Option<&'a [u8]>
    requires { IsObject layout.token token.now }
    ensures { option_copied result ≡ (token_of token.now).signer }
{
    match whole_token(token).signer() {
        Some(certificate) => Some(certificate.whole()),
        None => None,
    }
}

/// The signing certificate; none where no certificate of `KeyInfo` has its digest (EN 319 132-1, clause 5.2.2).
pub(crate) fn signing_certificate(parts: &SignatureParts) -> Option<&[u8]>
    requires { parts.now.signing_cert ≡ position (has_digest parts.now.digest_kind parts.now.digest) parts.now.key_certs }
    ensures { option_copied result ≡ option_and_then (slice_get parts.now.key_certs) parts.now.signing_cert }
{
    match parts.signing_cert() {
        Some(number) => Some(parts.key_cert(number)),
        None => None,
    }
}
