//! Items that are refused, and with which code. What is expected follows from RFC 3161, section 2.4.2, and EN 319 132-1, clauses 5.3 to 5.5.

use crate::changes::cut;
use crate::desk::{Desk, Ran, copied};
use crate::journeys::{ARCHIVED, NOW, STAMPED, archived, lasting, signed};
use std::test::Fail;

// Whether nothing was given out, and the line tells of an item and a code.
fn refuses(ran: &Ran, line: &str) -> bool {
    ran.status == 10 && ran.out.as_slice().is_empty() && ran.err.as_slice() == line.as_bytes()
}

// What comes of one item.
fn attached(desk: &Desk, document: &str, item: &str) -> Result<Ran, Fail> {
    desk.run(&["attach", document, "policy=policy", NOW, item])
}

// The line that tells of the first item.
const A14: &str = "xades: item 1 refused: A14\n";

const A20: &str = "xades: item 1 refused: A20\n";

const A21: &str = "xades: item 1 refused: A21\n";

const A22: &str = "xades: item 1 refused: A22\n";

const A23: &str = "xades: item 1 refused: A23\n";

const A24: &str = "xades: item 1 refused: A24\n";

const A25: &str = "xades: item 1 refused: A25\n";

const A26: &str = "xades: item 1 refused: A26\n";

const A27: &str = "xades: item 1 refused: A27\n";

#[test]
fn nothing_is_put_in_before_the_value(rt: HostRuntime) -> Result<(), Fail> {
    let (desk, _) = signed(rt.alloc())?;
    for item in ["stamp=value", "data=lists", "archive=value"] {
        assert!(rt; refuses(&attached(&desk, "doc=prepared", item)?, A14));
    }
    Ok(())
}

#[test]
fn a_token_over_other_octets(rt: HostRuntime) -> Result<(), Fail> {
    let (mut desk, mut keys) = lasting(rt.alloc())?;
    let stamp = keys.stamp(b"other", STAMPED)?;
    desk.put("other", stamp)?;
    assert!(rt; refuses(&attached(&desk, "doc=signed", "stamp=other")?, A20));
    assert!(rt; refuses(&attached(&desk, "doc=lasting", "archive=other")?, A20));
    let words = &[
        "attach",
        "doc=prepared",
        "policy=policy",
        NOW,
        "value=value",
        "stamp=other",
    ];
    assert!(rt; refuses(&desk.run(words)?, "xades: item 2 refused: A20\n"));
    Ok(())
}

#[test]
fn what_is_no_token(rt: HostRuntime) -> Result<(), Fail> {
    let (mut desk, keys) = lasting(rt.alloc())?;
    let token = cut(keys.alloc(), desk.file("stamp")?)?;
    desk.put("token", token)?;
    assert!(rt; refuses(&attached(&desk, "doc=signed", "stamp=token")?, A20));
    assert!(rt; refuses(&attached(&desk, "doc=lasting", "archive=token")?, A20));
    Ok(())
}

#[test]
fn a_token_of_a_time_to_come(rt: HostRuntime) -> Result<(), Fail> {
    let (mut desk, mut keys) = lasting(rt.alloc())?;
    let moment = "at=2030-02-01T00:00:00Z";
    let words = &[
        "attach",
        "doc=signed",
        "policy=policy",
        moment,
        "stamp=stamp",
    ];
    assert!(rt; desk.run(words)?.status == 0);
    let stamp = keys.stamp(desk.file("to_stamp")?, STAMPED + 1)?;
    desk.put("stamp", stamp)?;
    assert!(rt; refuses(&desk.run(words)?, A21));
    Ok(())
}

#[test]
fn an_archive_time_stamp_of_an_earlier_time(rt: HostRuntime) -> Result<(), Fail> {
    let (mut desk, mut keys) = lasting(rt.alloc())?;
    desk.keep("to_archive", &["octets", "doc=lasting", "for=archive"])?;
    for (time, line) in [(STAMPED, ""), (STAMPED - 1, A22)] {
        let archive = keys.archive(desk.file("to_archive")?, time)?;
        desk.put("archive", archive)?;
        let ran = attached(&desk, "doc=lasting", "archive=archive")?;
        assert!(rt; ran.err.as_slice() == line.as_bytes());
    }
    Ok(())
}

#[test]
fn a_time_stamp_on_a_signature_that_is_archived(rt: HostRuntime) -> Result<(), Fail> {
    let (mut desk, mut keys) = archived(rt.alloc())?;
    let stamp = keys.stamp(desk.file("to_stamp")?, STAMPED)?;
    desk.put("late", stamp)?;
    assert!(rt; refuses(&attached(&desk, "doc=archived", "stamp=late")?, A23));
    Ok(())
}

#[test]
fn what_wants_a_time_stamp_on_the_signature(rt: HostRuntime) -> Result<(), Fail> {
    let (mut desk, mut keys) = signed(rt.alloc())?;
    assert!(rt; refuses(&attached(&desk, "doc=signed", "data=lists")?, A24));
    let archive = keys.archive(b"", ARCHIVED)?;
    desk.put("archive", archive)?;
    assert!(rt; refuses(&attached(&desk, "doc=signed", "archive=archive")?, A20));
    Ok(())
}

#[test]
fn what_is_no_validation_data(rt: HostRuntime) -> Result<(), Fail> {
    let (mut desk, keys) = lasting(rt.alloc())?;
    let part = cut(keys.alloc(), desk.file("lists")?)?;
    desk.put("part", part)?;
    desk.put("none", copied(keys.alloc(), b"")?)?;
    assert!(rt; refuses(&attached(&desk, "doc=stamped", "data=part")?, A25));
    assert!(rt; refuses(&attached(&desk, "doc=stamped", "data=none")?, A26));
    Ok(())
}

#[test]
fn an_archive_time_stamp_without_a_revocation_list(rt: HostRuntime) -> Result<(), Fail> {
    let (mut desk, mut keys) = lasting(rt.alloc())?;
    desk.keep("to_archive", &["octets", "doc=stamped", "for=archive"])?;
    let archive = keys.archive(desk.file("to_archive")?, ARCHIVED)?;
    desk.put("archive", archive)?;
    assert!(rt; refuses(&attached(&desk, "doc=stamped", "archive=archive")?, A27));
    Ok(())
}
