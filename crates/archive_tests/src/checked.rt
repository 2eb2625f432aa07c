//! What stands against the next time-stamp of a signature. What is expected follows from EN 319 132-1, clauses 5.3 and 5.5.2, and RFC 3161,
//! section 2.4.2.

use crate::scene::{VALUE, judged, ordered, under_archive, with_four, with_none, with_two};
use crate::tokens::{START, bare, early, tokens_over};
use archive_octets::StampKind;
use stamp_checks::{NextStamp, OrderFault, StampFault};
use std::alloc::Global;
use std::test::Fail;
use tst_tokens::TokenFault;
use xa_io::Octs;

fn at(kind: StampKind, token: &[u8], moment: i64) -> NextStamp<'_> {
    NextStamp {
        kind,
        token,
        moment,
    }
}

// Whether each of two tokens is taken as that of the next time-stamp of its kind.
fn takes(alloc: Global, document: &str, tokens: &(Octs, Octs)) -> Result<bool, Fail> {
    let stamp = at(StampKind::Signature, tokens.0.as_slice(), START);
    let archive = at(StampKind::Archive, tokens.1.as_slice(), START);
    Ok(judged(alloc, document, stamp)?.is_ok() && judged(alloc, document, archive)?.is_ok())
}

#[test]
fn tokens_over_what_comes_next_are_taken(rt: HostRuntime) -> Result<(), Fail> {
    let alloc = rt.alloc();
    let covered = under_archive(alloc)?;
    let tokens = tokens_over(alloc, VALUE, covered.as_str())?;
    let document = with_two(alloc)?;
    assert!(rt; takes(alloc, document.as_str(), &tokens)?);
    Ok(())
}

// Whether a token over other octets is refused, and one that is cut.
fn refuses_tokens(alloc: Global, document: &str, token: &[u8]) -> Result<bool, Fail> {
    let archive = at(StampKind::Archive, token, START);
    let cut = at(
        StampKind::Signature,
        &token[..token.len().saturating_sub(1)],
        START,
    );
    Ok(
        matches!(
            judged(alloc, document, archive)?,
            Err(StampFault::Token(TokenFault::ImprintDiffers { .. }))
        ) && matches!(
            judged(alloc, document, cut)?,
            Err(StampFault::Token(TokenFault::Shape { at: 0 }))
        ),
    )
}

#[test]
fn tokens_that_are_refused(rt: HostRuntime) -> Result<(), Fail> {
    let alloc = rt.alloc();
    let token = bare(alloc)?;
    let document = with_two(alloc)?;
    assert!(rt; refuses_tokens(alloc, document.as_str(), token.as_slice())?);
    Ok(())
}

const FROM_FUTURE: OrderFault = OrderFault::FromFuture {
    gen_time: START,
    moment: START - 1,
};

const TIME_ORDER: OrderFault = OrderFault::TimeOrder {
    gen_time: START - 1,
    earlier: START,
};

#[test]
fn times_that_are_refused(rt: HostRuntime) -> Result<(), Fail> {
    let alloc = rt.alloc();
    let (token, early) = (bare(alloc)?, early(alloc)?);
    let document = with_two(alloc)?;
    let late = at(StampKind::Signature, token.as_slice(), START - 1);
    let before = at(StampKind::Archive, early.as_slice(), START);
    assert!(rt; ordered(alloc, document.as_str(), late)? == Some(FROM_FUTURE));
    assert!(rt; ordered(alloc, document.as_str(), before)? == Some(TIME_ORDER));
    Ok(())
}

#[test]
fn stamps_that_are_out_of_place(rt: HostRuntime) -> Result<(), Fail> {
    let alloc = rt.alloc();
    let token = bare(alloc)?;
    let (none, four) = (with_none(alloc)?, with_four(alloc)?);
    let stamp = at(StampKind::Signature, token.as_slice(), START);
    let archive = at(StampKind::Archive, token.as_slice(), START);
    assert!(rt; ordered(alloc, four.as_str(), stamp)? == Some(OrderFault::AfterArchive));
    assert!(rt; ordered(alloc, none.as_str(), archive)? == Some(OrderFault::NotStamped));
    Ok(())
}
