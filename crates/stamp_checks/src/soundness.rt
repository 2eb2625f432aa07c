//! Whether octets are a time-stamp token over other octets (RFC 3161, section 2.4.2).

ghost use Rattle.std.specs.Prelude.{◌≡◌, IfErr, MatchResult};
ghost use Rattle.algorithms.specs.Digests.{digest_of};
ghost use Rattle.stamp_checks.specs.Sound.{covered_digest, IsFirstOver, IsSoundOver, IsStampOver};
ghost use Rattle.tst_tokens.specs.Sound.{IsFirst};
ghost use Rattle.tst_tokens.specs.View.{token_bytes};

use algorithms::{Digest, DigestKind, Hasher};
use std::alloc::Global;
use tst_tokens::{Token, TokenFault, check_token, read_token};
use xa_io::Octets;

fn digest(kind: DigestKind, octets: &[u8]) -> Digest
    ensures { result ≡ digest_of kind octets.now }
{
    let mut hasher = Hasher::new(kind);
    hasher.put(octets);
    hasher.finish()
}

// Whether a token is sound over octets.
fn check_read(alloc: Global, token: &Token<'_>, covered: &[u8]) -> Result<(), TokenFault>
    ensures judged { MatchResult result
        (λ done. IsSoundOver covered.now (token_bytes token.now))
        (λ fault. IsFirst (covered_digest covered.now (token_bytes token.now)) (token_bytes token.now) fault) }
    ensures exact { IsSoundOver covered.now (token_bytes token.now) → IfErr result (λ fault. fault ≡ TokenFault.OutOfMemory) }
{
    let digest = digest(token.imprint_kind(), covered);
    check_token(alloc, token, &digest)
}

/// Whether octets are one whole time-stamp token that is sound over other octets: over their digest by the algorithm of its imprint, as
/// `check_token` judges it (RFC 3161, section 2.4.2).
///
/// Err: the place of the first bad element, where the octets are no token; else the first of what makes a token unsound; or memory could
/// not be had.
pub fn check_over(alloc: Global, token: &[u8], covered: &[u8]) -> Result<(), TokenFault>
    ensures judged { MatchResult result (λ done. IsStampOver covered.now token.now) (IsFirstOver covered.now token.now) }
    ensures exact { IsStampOver covered.now token.now → IfErr result (λ fault. fault ≡ TokenFault.OutOfMemory) }
{
    match read_token(token) {
        Ok(read) => check_read(alloc, &read, covered),
        Err(fault) => Err(TokenFault::Shape { at: fault.at }),
    }
}
