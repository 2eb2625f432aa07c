//! What `validate` says on the way. What is expected follows from XML Signature 1.1, section 3.2, and EN 319 132-1, clause 6.

use crate::changes::{cut, replaced};
use crate::desk::{Desk, Ran, copied};
use crate::journeys::{NOW, archived, lasting, signed};
use std::test::Fail;

// Whether octets have a part that is a text.
fn has(octets: &[u8], text: &str) -> bool {
    for at in 0..octets.len() {
        if octets[at..].starts_with(text.as_bytes()) {
            return true;
        }
    }
    false
}

fn judged(desk: &Desk, document: &str) -> Result<Ran, Fail> {
    desk.run(&["validate", document, "policy=policy", NOW])
}

// Whether the report says yes and a level.
fn says_yes(ran: &Ran, level: &str) -> bool {
    let text = ran.out.as_slice();
    ran.status == 0
        && ran.err.as_slice().is_empty()
        && text.starts_with(b"verdict: yes\nmoment: 2030-04-01T00:00:00Z\n")
        && has(text, level)
}

#[test]
fn yes_with_an_archive_time_stamp(rt: HostRuntime) -> Result<(), Fail> {
    let (desk, _) = archived(rt.alloc())?;
    let ran = judged(&desk, "doc=archived")?;
    assert!(rt; says_yes(&ran, "level: B-LTA\n"));
    assert!(rt;
        has(
            ran.out.as_slice(),
            "walk: accepted\ntoken 1: signature 2030-02-01T00:00:00Z sound accepted "
        )
    );
    assert!(rt; has(ran.out.as_slice(), "\norder: kept\nobject 1: certificate "));
    Ok(())
}

#[test]
fn yes_with_validation_data(rt: HostRuntime) -> Result<(), Fail> {
    let (desk, _) = lasting(rt.alloc())?;
    assert!(rt; says_yes(&judged(&desk, "doc=lasting")?, "level: B-LT\n"));
    let words = &[
        "validate",
        "doc=stamped",
        "policy=policy",
        NOW,
        "more=lists",
    ];
    assert!(rt; says_yes(&desk.run(words)?, "level: B-LT\n"));
    Ok(())
}

#[test]
fn no_without_revocation_lists(rt: HostRuntime) -> Result<(), Fail> {
    let (desk, _) = lasting(rt.alloc())?;
    let ran = judged(&desk, "doc=stamped")?;
    let text = ran.out.as_slice();
    assert!(rt; ran.status == 1 && ran.err.as_slice().is_empty());
    assert!(rt; text.starts_with(b"verdict: no\nmoment: 2030-04-01T00:00:00Z\nlevel: B-T\n"));
    assert!(rt; has(text, "\nwalk: refused\n"));
    Ok(())
}

#[test]
fn no_where_a_text_was_changed(rt: HostRuntime) -> Result<(), Fail> {
    let (mut desk, keys) = archived(rt.alloc())?;
    let changed = replaced(keys.alloc(), desk.file("archived")?, ">text<", b">test<")?;
    desk.put("changed", changed)?;
    let ran = judged(&desk, "doc=changed")?;
    assert!(rt; ran.status == 1);
    assert!(rt;
        has(ran.out.as_slice(), "\nreference 1: sha256 ")
            && has(ran.out.as_slice(), " differ accepted ")
    );
    Ok(())
}

#[test]
fn no_for_documents_that_cannot_be_judged(rt: HostRuntime) -> Result<(), Fail> {
    let (desk, _) = signed(rt.alloc())?;
    for (document, text) in [
        (
            "doc=bill",
            "verdict: no\nmoment: 2030-04-01T00:00:00Z\nfault: A1\n",
        ),
        (
            "doc=prepared",
            "verdict: no\nmoment: 2030-04-01T00:00:00Z\nfault: A14\n",
        ),
    ] {
        let ran = judged(&desk, document)?;
        assert!(rt; ran.status == 1 && ran.out.as_slice() == text.as_bytes());
    }
    Ok(())
}

#[test]
fn files_that_are_no_revocation_lists(rt: HostRuntime) -> Result<(), Fail> {
    let (mut desk, keys) = signed(rt.alloc())?;
    let part = cut(keys.alloc(), desk.file("lists")?)?;
    desk.put("part", part)?;
    desk.put("none", copied(keys.alloc(), b"")?)?;
    let words = &[
        "validate",
        "doc=signed",
        "policy=policy",
        NOW,
        "more=lists",
        "more=none",
        "more=part",
    ];
    let ran = desk.run(words)?;
    assert!(rt; ran.status == 9 && ran.out.as_slice().is_empty());
    assert!(rt; ran.err.as_slice() == b"xades: data fault: part at 0\n".as_slice());
    Ok(())
}
