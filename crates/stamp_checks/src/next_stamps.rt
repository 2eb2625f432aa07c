//! Whether octets are the token of the next time-stamp of a signature.

ghost use Rattle.std.specs.Prelude.{◌≡◌, IfErr, MatchResult};
ghost use Rattle.archive_octets.specs.Kinds.{kind_in};
ghost use Rattle.doc_spans.specs.Seen.{document_in};
ghost use Rattle.qualifying_props.specs.PartsOf.{AreParts};
ghost use Rattle.qualifying_props.specs.Wholes.{AreWhole};
ghost use Rattle.reference_chains.specs.HandedIn.{handed_in};
ghost use Rattle.references.specs.RefsOf.{AreRefsOf};
ghost use Rattle.signature_elements.specs.Standing.{spot_of};
ghost use Rattle.signature_model.specs.Octets.{next_octets};
ghost use Rattle.stamp_checks.specs.Faults.{order_fault, IsTaken, StandsAgainst};
ghost use Rattle.stamp_checks.specs.Sound.{IsFirstOver, IsStampOver};

use crate::faults::StampFault;
use crate::orders::order_fault;
use crate::soundness::check_over;
use archive_octets::{StampKind, next_octets};
use doc_spans::Doc;
use qualifying_props::SignatureParts;
use references::{Externals, Refs};
use std::alloc::Global;
use tst_tokens::{TokenFault, whole_token};

/// Whether octets are one whole time-stamp token that is sound over what the next time-stamp of a kind covers (`next_octets`). Err as in
/// `check_over`.
pub fn check_next(
    alloc: Global,
    doc: Doc<'_>,
    parts: &SignatureParts,
    refs: &Refs,
    externals: &Externals,
    kind: StampKind,
    token: &[u8],
) -> Result<(), TokenFault>
    requires parts { AreParts doc parts.now }
    requires refs { AreRefsOf doc parts.now refs.now }
    ensures judged { let covered = next_octets (kind_in kind) (handed_in externals.now) (document_in doc.entry) (spot_of doc.entry parts.now.signature) in
        MatchResult result (λ done. IsStampOver covered token.now) (IsFirstOver covered token.now) }
    ensures exact { let covered = next_octets (kind_in kind) (handed_in externals.now) (document_in doc.entry) (spot_of doc.entry parts.now.signature) in
        IsStampOver covered token.now → IfErr result (λ fault. fault ≡ TokenFault.OutOfMemory) }
{
    match next_octets(alloc, doc, parts, refs, externals, kind) {
        Ok(covered) => check_over(alloc, token, covered.as_slice()),
        Err(_) => Err(TokenFault::OutOfMemory),
    }
}

/// A time-stamp that is to be put in next: its kind, the octets of its token, and the moment at which it is, in seconds since 1970.
#[derive(Clone, Copy)]
pub struct NextStamp<'a> {
    /// On what it is.
    pub kind: StampKind,
    /// Its token, in DER.
    pub token: &'a [u8],
    /// The moment, after which no token may be.
    pub moment: i64,
}

/// Whether a time-stamp may be put in next: its octets are one whole token that is sound over what it will cover, and nothing else stands
/// against it (`order_fault`). Err: the first that stands against it; or memory could not be had.
pub fn judge_next(
    alloc: Global,
    doc: Doc<'_>,
    parts: &SignatureParts,
    refs: &Refs,
    externals: &Externals,
    stamp: NextStamp<'_>,
) -> Result<(), StampFault>
    requires parts { AreParts doc parts.now }
    requires refs { AreRefsOf doc parts.now refs.now }
    requires whole { AreWhole parts.now }
    ensures judged { let document = document_in doc.entry in let signature = spot_of doc.entry parts.now.signature in let token = stamp.entry.token.now in
        let covered = next_octets (kind_in stamp.entry.kind) (handed_in externals.now) document signature in
        let besides = order_fault stamp.entry.kind stamp.entry.moment document signature token in
        MatchResult result (λ done. IsTaken covered token besides) (StandsAgainst covered token besides) }
    ensures exact { let document = document_in doc.entry in let signature = spot_of doc.entry parts.now.signature in let token = stamp.entry.token.now in
        let covered = next_octets (kind_in stamp.entry.kind) (handed_in externals.now) document signature in
        let besides = order_fault stamp.entry.kind stamp.entry.moment document signature token in
        IsTaken covered token besides → IfErr result (λ fault. fault ≡ StampFault.Token TokenFault.OutOfMemory) }
{
    if let Err(fault) = check_next(alloc, doc, parts, refs, externals, stamp.kind, stamp.token) {
        return Err(StampFault::Token(fault));
    }
    let token = whole_token(stamp.token);
    match order_fault(parts, stamp.kind, &token, stamp.moment) {
        Some(fault) => Err(StampFault::Order(fault)),
        None => Ok(()),
    }
}
