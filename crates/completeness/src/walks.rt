//! The first signer whose certificate has no complete walk.

ghost use Rattle.std.specs.Prelude.{◌≡◌, ◌↔◌, ℕ, List, [], Some, IsTrue, IfOk, Ok, option_and_then, slice_get};
ghost use Rattle.std.specs.Option.{option_copied};
ghost use Rattle.acceptance.specs.Certificates.{Member};
ghost use Rattle.acceptance.specs.Walks.{HasCertificate};
ghost use Rattle.completeness.specs.Complete.{AreThere, IsComplete, IsFirstIncomplete};
ghost use Rattle.completeness.specs.Signers.{shown_signers, signers};
ghost use Rattle.doc_spans.specs.declared.documents.Doc.{Doc};
ghost use Rattle.doc_spans.specs.Seen.{document_in};
ghost use Rattle.policy_rules.specs.View.{rules};
ghost use Rattle.qualifying_props.specs.Answers.{IsAnswer};
ghost use Rattle.qualifying_props.specs.PartsOf.{AreParts};
ghost use Rattle.qualifying_props.specs.Wholes.{AreWhole};
ghost use Rattle.signature_elements.specs.Standing.{spot_of};
ghost use Rattle.signature_evidence.specs.Pools.{pool_of};
ghost use Rattle.signature_objects.specs.Held.{objects};
ghost use Rattle.signature_objects.specs.Objects.{Object};

use crate::signers::{signer_of, signing_certificate};
use case_objects::objects_case;
use cert_paths::Links;
use policy_rules::Policy;
use qualifying_props::SignatureParts;
use std::alloc::Global;
use xa_io::OutOfMemory;

// Whether a signer isn't missing and has a complete walk.
fn is_complete(alloc: Global, links: &Links<'_>, signer: Option<&[u8]>) -> Result<bool, OutOfMemory>
    requires there { (bytes : List ℕ) → option_copied signer ≡ Some bytes → (m : Member) × HasCertificate links.now.pool m × (m.certificate.whole ≡ bytes) }
    ensures { IfOk result (λ answer. IsTrue answer ↔ IsComplete links.now.pool links.now.policy (option_copied signer.entry)) }
{
    match signer {
        None => Ok(false),
        Some(bytes) => {
            let answer = links.complete(alloc, bytes)?;
            Ok(answer)
        }
    }
}

// The number, from 1, of the first token whose signer is missing or has no complete walk. There are fewer than 2 ^ 32 properties, as there are
// of nodes.
fn first_token(
    alloc: Global,
    links: &Links<'_>,
    parts: &SignatureParts,
) -> Result<Option<u32>, OutOfMemory>
    requires whole { AreWhole parts.now }
    requires there { AreThere links.now.pool (shown_signers parts.now) }
    requires signer { IsComplete links.now.pool links.now.policy (option_and_then (slice_get parts.now.key_certs) parts.now.signing_cert) }
    ensures { IfOk result (IsFirstIncomplete links.now.pool links.now.policy (shown_signers parts.now)) }
{
    let Ok(properties) = u32::try_from(parts.properties()) else {
        return Err(OutOfMemory);
    };
    let mut before = 0;
    for number in 0..properties {
        if let Some(token) = parts.token(number as usize) {
            if !is_complete(alloc, links, signer_of(token))? {
                return Ok(Some(before + 1));
            }
            before += 1;
        }
    }
    Ok(None)
}

/// The first signer, by the links of a pool and a policy, whose certificate has no complete walk (`Links::complete`): 0 is the signer of
/// the signature, and the signers of its time-stamps' tokens have their numbers from 1, in document order. One that is missing has none.
/// None where all walks are complete.
///
/// The pool is that of the signature's objects, with whatever is handed in. No signature is verified here.
pub fn first_incomplete_by(
    alloc: Global,
    links: &Links<'_>,
    parts: &SignatureParts,
) -> Result<Option<u32>, OutOfMemory>
    requires whole { AreWhole parts.now }
    requires pool { (doc : Doc) × (more : List Object) × AreParts doc parts.now × (links.now.pool ≡ pool_of (objects (document_in doc) (spot_of doc parts.now.signature) more)) }
    ensures { (doc : Doc) → AreParts doc parts.now → IfOk result (IsFirstIncomplete links.now.pool links.now.policy (signers (document_in doc) (spot_of doc parts.now.signature))) }
{
    if !is_complete(alloc, links, signing_certificate(parts))? {
        return Ok(Some(0));
    }
    let found = first_token(alloc, links, parts)?;
    Ok(found)
}

/// The same for the objects of the signature alone, with nothing that is handed in: it builds their pool, and verifies their signatures.
///
/// Err: memory could not be had, or there are more than 1,048,576 References.
pub fn first_incomplete(
    alloc: Global,
    parts: &SignatureParts,
    policy: &Policy,
) -> Result<Option<u32>, OutOfMemory>
    requires read { (doc : Doc) × IsAnswer doc (Ok parts.now) }
    ensures { (doc : Doc) → IsAnswer doc (Ok parts.now) → let document = document_in doc in let signature = spot_of doc parts.now.signature in
        IfOk result (IsFirstIncomplete (pool_of (objects document signature [])) (rules policy.now) (signers document signature)) }
{
    let case = objects_case(alloc, parts)?;
    let links = Links::new(alloc, case.pool(), policy)?;
    let found = first_incomplete_by(alloc, &links, parts)?;
    Ok(found)
}
