//! Whether a token is sound over a digest: RFC 3161, 2.4.2; RFC 5652, 5.4 and 5.6; RFC 5035, 5.

ghost use Rattle.std.specs.Prelude.{◌≡◌, IfOk, IfErr, MatchOption, MatchResult};
ghost use Rattle.algorithms.specs.Digests.{digest_of};
ghost use Rattle.tst_tokens.specs.Sound as sound;
ghost use Rattle.tst_tokens.specs.View.{token_bytes};
ghost use Rattle.x509_certs.specs.Certificates as certificates;
ghost use Rattle.x509_certs.specs.View.{certificate_bytes};

use crate::fault::TokenFault;
use crate::token::Token;
use algorithms::{Digest, DigestKind, Hasher, SignatureKind, verify};
use std::alloc::Global;
use xa_io::{Octets, Octs};

fn digest(kind: DigestKind, message: &[u8]) -> Digest
    ensures { result ≡ digest_of kind message.now }
{
    let mut hasher = Hasher::new(kind);
    hasher.put(message);
    hasher.finish()
}

// These bytes, kept.
fn kept(alloc: Global, bytes: &[u8]) -> Result<Octs, TokenFault>
    ensures ok { IfOk result (λ octs. octs ≡ bytes.now) }
    ensures err { IfErr result (λ fault. fault ≡ TokenFault.OutOfMemory) }
{
    let mut octs = Octs::new(alloc);
    match octs.push_all(bytes) {
        Ok(()) => Ok(octs),
        Err(_) => Err(TokenFault::OutOfMemory),
    }
}

// The signed attributes as they are signed: with the tag of a SET in place of their own (RFC 5652, 5.4).
fn as_set(alloc: Global, attributes: &[u8]) -> Result<Octs, TokenFault>
    ensures ok { IfOk result (λ octs. octs ≡ sound.as_set attributes.now) }
    ensures err { IfErr result (λ fault. fault ≡ TokenFault.OutOfMemory) }
{
    let mut text = kept(alloc, &[0x31])?;
    let rest = match attributes {
        [] => attributes,
        [_, rest @ ..] => rest,
    };
    match text.push_all(rest) {
        Ok(()) => Ok(text),
        Err(_) => Err(TokenFault::OutOfMemory),
    }
}

// The kind of the signature, which the signer's key has too.
fn kind_of_both(sign_oid: &[u8], key_oid: &[u8]) -> Option<SignatureKind>
    ensures { MatchOption result
        (sound.IsOfNone sign_oid.now key_oid.now)
        (λ kind. sound.IsOf kind sign_oid.now key_oid.now) }
{
    if sign_oid == key_oid {
        SignatureKind::of_oid(sign_oid)
    } else {
        None
    }
}

// The first two points: the imprint, and messageDigest.
fn check_digests(alloc: Global, token: &Token<'_>, covered: &Digest) -> Result<(), TokenFault>
    ensures judged { MatchResult result
        (λ done. sound.HasContent covered.now (token_bytes token.now))
        (λ fault. sound.IsFirst covered.now (token_bytes token.now) fault) }
{
    let imprint = token.imprint();
    if imprint != covered.as_slice() {
        let want = kept(alloc, imprint)?;
        return Err(TokenFault::ImprintDiffers {
            got: *covered,
            want,
        });
    }
    let content = digest(token.content_kind(), token.content_octets());
    let named = token.message_digest();
    if named != content.as_slice() {
        let want = kept(alloc, named)?;
        return Err(TokenFault::ContentDigestDiffers { got: content, want });
    }
    Ok(())
}

/// Whether a token is sound over a digest, which is to be that of the covered octets by the token's `imprint_kind`.
///
/// Ok exactly where the imprint is that digest, messageDigest is the digest of the content's octets, the signer's certificate is in the
/// token, signing-certificate-v2 has the hash of that certificate, the certificate is for stamping time, the signature and the key are of
/// one known kind, and the signature holds for the signed attributes. Else the fault is of the first of these, in this order, that isn't
/// so.
///
/// `OutOfMemory` comes only where bytes have to be kept or the signed text put together; nothing else takes memory.
pub fn check_token(alloc: Global, token: &Token<'_>, covered: &Digest) -> Result<(), TokenFault>
    ensures judged { MatchResult result
        (λ done. sound.IsSound covered.now (token_bytes token.now))
        (λ fault. sound.IsFirst covered.now (token_bytes token.now) fault) }
    ensures exact { sound.IsSound covered.now (token_bytes token.now) → IfErr result (λ fault. fault ≡ TokenFault.OutOfMemory) }
{
    check_digests(alloc, token, covered)?;
    let Some(signer) = token.signer() else {
        return Err(TokenFault::NoSigner);
    };
    let hash = digest(token.cert_hash_kind(), signer.whole());
    let named = token.cert_hash();
    if named != hash.as_slice() {
        let want = kept(alloc, named)?;
        return Err(TokenFault::CertHashDiffers { got: hash, want });
    }
    if !signer.stamps_time() {
        return Err(TokenFault::Purpose);
    }
    let Some(kind) = kind_of_both(token.sign_oid(), signer.key_oid()) else {
        return Err(TokenFault::UnknownKind);
    };
    let text = as_set(alloc, token.signed_attributes())?;
    if !verify(kind, signer.key(), text.as_slice(), token.signature()) {
        return Err(TokenFault::Fails);
    }
    Ok(())
}
