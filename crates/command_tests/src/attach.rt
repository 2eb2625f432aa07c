//! Tests of `attach`. The document is one that `prepare` gave.

use crate::prepare::{USUAL, WHOLE, policy_text, prepared};
use crate::runs::{Answer, is, words_of};
use std::test::Fail;
use xa_io::{MemShelf, MemSink};
use xades_cli::run;

const HEAD: [&str; 4] = ["attach", "doc=s", "policy=p", "at=2030-01-01T00:00:00Z"];

// Runs `attach` with further words over a shelf with a prepared document as `s`, a document without signature as `a`, a policy, a value that
// doesn't verify, and three bytes as `e`.
fn attached(rt: &HostRuntime, head: &[&str], further: &[&str]) -> Result<Answer, Fail> {
    let mut words = words_of(rt, head)?;
    for text in further {
        words.push(String::from_str(rt.alloc(), text)?)?;
    }
    let mut shelf = MemShelf::new(rt.alloc(), 1000);
    shelf.add("s", prepared(rt, &USUAL)?.out.as_slice())?;
    shelf.add("a", b"<r/>")?;
    shelf.add("p", policy_text(rt.alloc(), WHOLE)?.as_bytes())?;
    shelf.add("v", b"value")?;
    shelf.add("e", b"abc")?;
    let mut out = MemSink::new(rt.alloc(), 8000)?;
    let mut err = MemSink::new(rt.alloc(), 100)?;
    let status = run(rt.alloc(), &words, &mut shelf, &mut out, &mut err);
    Ok(Answer {
        number: status.number(),
        out,
        err,
    })
}

#[test]
fn a_value_that_does_not_verify(rt: HostRuntime) -> Result<(), Fail> {
    let answer = attached(&rt, &HEAD, &["value=v", "ext=e"])?;
    assert!(rt; is(&answer, 10, b"", b"xades: item 1 refused: A19\n"));
    Ok(())
}

#[test]
fn octets_that_are_not_handed_in(rt: HostRuntime) -> Result<(), Fail> {
    let answer = attached(&rt, &HEAD, &["value=v"])?;
    assert!(rt; is(&answer, 10, b"", b"xades: item 1 refused: A10\n"));
    Ok(())
}

#[test]
fn a_document_without_signature(rt: HostRuntime) -> Result<(), Fail> {
    let head = ["attach", "doc=a", "policy=p", "at=2030-01-01T00:00:00Z"];
    let answer = attached(&rt, &head, &["value=v"])?;
    assert!(rt; is(&answer, 10, b"", b"xades: item 1 refused: A1\n"));
    Ok(())
}

#[test]
fn a_policy_that_is_none(rt: HostRuntime) -> Result<(), Fail> {
    let head = ["attach", "doc=s", "policy=e", "at=2030-01-01T00:00:00Z"];
    let answer = attached(&rt, &head, &["value=v"])?;
    assert!(rt; is(&answer, 8, b"", b"xades: policy fault 1: toml\n"));
    Ok(())
}

#[test]
fn an_item_that_is_missing(rt: HostRuntime) -> Result<(), Fail> {
    let answer = attached(&rt, &HEAD, &["ext=e"])?;
    assert!(rt; is(&answer, 2, b"", b"xades: word 5 is not understood\n"));
    Ok(())
}
