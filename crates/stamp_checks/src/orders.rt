//! Which time-stamps a signature has, and what stands against the next one.

ghost use Rattle.std.specs.Prelude.{◌≡◌};
ghost use Rattle.std.specs.Option.{option_or};
ghost use Rattle.doc_spans.specs.declared.documents.Doc.{Doc};
ghost use Rattle.doc_spans.specs.Seen.{document_in};
ghost use Rattle.qualifying_props.specs.PartsOf.{AreParts};
ghost use Rattle.qualifying_props.specs.Wholes.{AreWhole};
ghost use Rattle.signature_elements.specs.Standing.{spot_of};
ghost use Rattle.signature_parts.specs.Kinds.{kind_in};
ghost use Rattle.stamp_checks.specs.Faults as said;
ghost use Rattle.stamp_checks.specs.Orders.{has_stamp, is_of};
ghost use Rattle.tst_tokens.specs.View.{token_bytes};

use crate::faults::OrderFault;
use crate::times::later_time;
use archive_octets::StampKind;
use qualifying_props::{PropertyKind, SignatureParts};
use tst_tokens::Token;

// Whether a property is a time-stamp of a kind.
fn is_of(kind: StampKind, property: PropertyKind) -> bool
    ensures { result ≡ is_of kind (kind_in property) }
{
    match kind {
        StampKind::Signature => matches!(property, PropertyKind::SignatureStamp),
        StampKind::Archive => matches!(property, PropertyKind::ArchiveStamp),
    }
}

/// Whether one of the unsigned properties of a signature is a time-stamp of a kind. A signature that has a time-stamp on the archive takes
/// none on the signature any more, and one on the archive wants one on the signature before it.
pub fn has_stamp(parts: &SignatureParts, kind: StampKind) -> bool
    ensures { (doc : Doc) → AreParts doc parts.now → result ≡ has_stamp kind (document_in doc) (spot_of doc parts.now.signature) }
{
    for number in 0..parts.properties() {
        if is_of(kind, parts.property_kind(number)) {
            return true;
        }
    }
    false
}

fn from_future(token: &Token<'_>, moment: i64) -> Option<OrderFault>
    ensures { result ≡ said.from_future moment (token_bytes token.now) }
{
    let gen_time = token.gen_time();
    if moment < gen_time {
        Some(OrderFault::FromFuture { gen_time, moment })
    } else {
        None
    }
}

fn out_of_order(parts: &SignatureParts, token: &Token<'_>) -> Option<OrderFault>
    requires { AreWhole parts.now }
    ensures { (doc : Doc) → AreParts doc parts.now → result ≡ said.out_of_order (document_in doc) (spot_of doc parts.now.signature) (token_bytes token.now) }
{
    let gen_time = token.gen_time();
    match later_time(parts, gen_time) {
        Some(earlier) => Some(OrderFault::TimeOrder { gen_time, earlier }),
        None => None,
    }
}

fn after_archive(parts: &SignatureParts) -> Option<OrderFault>
    ensures { (doc : Doc) → AreParts doc parts.now → result ≡ said.after_archive (document_in doc) (spot_of doc parts.now.signature) }
{
    if has_stamp(parts, StampKind::Archive) {
        Some(OrderFault::AfterArchive)
    } else {
        None
    }
}

fn not_stamped(parts: &SignatureParts) -> Option<OrderFault>
    ensures { (doc : Doc) → AreParts doc parts.now → result ≡ said.not_stamped (document_in doc) (spot_of doc parts.now.signature) }
{
    if has_stamp(parts, StampKind::Signature) {
        None
    } else {
        Some(OrderFault::NotStamped)
    }
}

/// The first that stands against a token as the next time-stamp of a kind, in the order of `OrderFault`; none where nothing does. The moment
/// is in seconds since 1970, and a token of that very moment is taken.
pub fn order_fault(
    parts: &SignatureParts,
    kind: StampKind,
    token: &Token<'_>,
    moment: i64,
) -> Option<OrderFault>
    requires { AreWhole parts.now }
    ensures { (doc : Doc) → AreParts doc parts.now → result ≡ said.order_fault kind moment (document_in doc) (spot_of doc parts.now.signature) (token_bytes token.now) }
{
    let early = from_future(token, moment);
    if early.is_some() {
        return early;
    }
    match kind {
        StampKind::Signature => after_archive(parts),
        StampKind::Archive => archive_fault(parts, token),
    }
}

fn archive_fault(parts: &SignatureParts, token: &Token<'_>) -> Option<OrderFault>
    requires { AreWhole parts.now }
    ensures { (doc : Doc) → AreParts doc parts.now → result ≡ option_or (said.out_of_order (document_in doc) (spot_of doc parts.now.signature) (token_bytes token.now)) (said.not_stamped (document_in doc) (spot_of doc parts.now.signature)) }
{
    let late = out_of_order(parts, token);
    if late.is_some() {
        return late;
    }
    not_stamped(parts)
}
