//! Whether the signing certificate is accepted.

ghost use Rattle.std.specs.Prelude.{◌≤◌, ◌↔◌, length, IfOk, IfSome, IsTrue};
ghost use Rattle.acceptance.specs.Walks.{HasCertificate};
ghost use Rattle.signature_cases.specs.Built.{member_of};
ghost use Rattle.signature_verdicts.specs.Seen.{IsSignerAccepted};

use cert_paths::{Links, Times};
use signature_cases::SigningCert;
use std::alloc::Global;
use xa_io::OutOfMemory;

/// Whether the signing certificate is accepted at a time, which is that of the value; not where there is none (RFC 5280, section 6).
pub(crate) fn walk_answer(
    alloc: Global,
    links: &Links<'_>,
    times: &Times,
    signer: Option<SigningCert<'_>>,
    at: i64,
) -> Result<bool, OutOfMemory>
    requires signer { IfSome signer (λ signer. HasCertificate links.now.pool (member_of signer)) }
    requires times { length links.now.pool ≤ length times.now }
    ensures { IfOk result (λ answer. IsTrue answer ↔ IsSignerAccepted links.now.pool links.now.policy times.now at signer.entry) }
{
    match signer {
        None => Ok(false),
        Some(signer) => {
            let answer = links.accepted(alloc, times, signer.octets, at, at)?;
            Ok(answer)
        }
    }
}
