//! Whether a token is accepted under a list of times, and the time that it proves.

ghost use Rattle.std.specs.Prelude.{◌≡◌, ◌↔◌, ◌≤◌, length, IsTrue, IfOk};
ghost use Rattle.der_values.specs.Fits.{IsObject};
ghost use Rattle.policy_rules.specs.View.{rules};
ghost use Rattle.tst_tokens.specs.Layouts as layout;
ghost use Rattle.acceptance.specs.Objects.{token_of};
ghost use Rattle.acceptance.specs.Stamping as stamping;
ghost use Rattle.tst_tokens.specs.View.{token_bytes};
ghost use Rattle.existence_times.specs.Judged.{AreKindsAccepted};
ghost use Rattle.existence_times.specs.Shown.{HasSignerOf};

use cert_paths::{Links, Times, is_kind_accepted, kind_named};
use policy_rules::Policy;
use std::alloc::Global;
use tst_tokens::{Token, read_token};
use xa_io::OutOfMemory;

// Whether the digests and the kind of signature that a token names are accepted at a time.
#[tactic(auto, unfolding(acceptance::specs::Objects::token_of))]
fn are_kinds_accepted(policy: &Policy, token: &Token<'_>, at: i64) -> bool
    ensures { IsTrue result ↔ AreKindsAccepted (rules policy.now) (token_of (token_bytes token.now)) at }
{
    if !policy.digest_accepted(token.imprint_kind(), at) {
        return false;
    }
    if !policy.digest_accepted(token.content_kind(), at) {
        return false;
    }
    if !policy.digest_accepted(token.cert_hash_kind(), at) {
        return false;
    }
    is_kind_accepted(policy, kind_named(token.sign_oid()), at)
}

/// Whether a token, whose signer is in the pool where it has one, is accepted at a time (RFC 3161; RFC 5280, section 6, in this
/// profile): its three digests and the kind of its signature are accepted then, and its signer is accepted from its time on.
pub(crate) fn is_token_accepted(
    alloc: Global,
    links: &Links<'_>,
    policy: &Policy,
    times: &Times,
    bytes: &[u8],
    at: i64,
) -> Result<bool, OutOfMemory>
    requires policy { links.now.policy ≡ rules policy.now }
    requires whole { IsObject layout.token bytes.now }
    requires signer { HasSignerOf links.now.pool (token_of bytes.now) }
    requires times { length links.now.pool ≤ length times.now }
    ensures { IfOk result (λ answer. IsTrue answer ↔ stamping.IsTokenAccepted links.now.pool links.now.policy times.now (token_of bytes.now) at) }
{
    let Ok(token) = read_token(bytes) else {
        return Ok(false);
    };
    if !are_kinds_accepted(policy, &token, at) {
        return Ok(false);
    }
    let Some(signer) = token.signer() else {
        return Ok(false);
    };
    let answer = links.accepted(alloc, times, signer.whole(), token.gen_time(), at)?;
    Ok(answer)
}

// The time that a token proves by the policy.
#[tactic(auto, unfolding(acceptance::specs::Objects::token_of))]
fn proof_time_of(policy: &Policy, token: &Token<'_>) -> i64
    ensures { result ≡ stamping.proof_time (rules policy.now) (token_of (token_bytes token.now)) }
{
    if policy.version() == 2 {
        token.gen_time() + i64::from(token.accuracy())
    } else {
        token.gen_time()
    }
}

/// The time that a token proves by the policy: its genTime, and by version 2 its accuracy later.
pub(crate) fn proof_time(policy: &Policy, bytes: &[u8]) -> i64
    requires { IsObject layout.token bytes.now }
    ensures { result ≡ stamping.proof_time (rules policy.now) (token_of bytes.now) }
{
    match read_token(bytes) {
        Ok(token) => proof_time_of(policy, &token),
        Err(_) => unreachable!(),
    }
}
