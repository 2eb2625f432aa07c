//! What `octets` gives on the way, and when it gives nothing. What is expected follows from EN 319 132-1, clauses 5.3 and 5.5.2.

use crate::desk::{Desk, Ran};
use crate::journeys::archived;
use std::test::Fail;

fn refuses(ran: &Ran, line: &str) -> bool {
    ran.status == 10 && ran.out.as_slice().is_empty() && ran.err.as_slice() == line.as_bytes()
}

fn asked(desk: &Desk, document: &str, purpose: &str) -> Result<Ran, Fail> {
    desk.run(&["octets", document, purpose])
}

#[test]
fn octets_that_are_not_given(rt: HostRuntime) -> Result<(), Fail> {
    let (desk, _) = archived(rt.alloc())?;
    for (document, purpose, line) in [
        ("doc=bill", "for=stamp", "xades: item 0 refused: A1\n"),
        (
            "doc=signed",
            "for=signature",
            "xades: item 0 refused: A13\n",
        ),
        ("doc=prepared", "for=stamp", "xades: item 0 refused: A14\n"),
        (
            "doc=prepared",
            "for=archive",
            "xades: item 0 refused: A14\n",
        ),
        ("doc=archived", "for=stamp", "xades: item 0 refused: A23\n"),
        ("doc=signed", "for=archive", "xades: item 0 refused: A24\n"),
    ] {
        assert!(rt; refuses(&asked(&desk, document, purpose)?, line));
    }
    Ok(())
}

#[test]
fn a_time_stamp_covers_the_element_of_the_value(rt: HostRuntime) -> Result<(), Fail> {
    let (desk, _) = archived(rt.alloc())?;
    let octets = desk.file("to_stamp")?;
    assert!(rt;
        octets.starts_with(b"<ds:SignatureValue xmlns:ds=\"http://www.w3.org/2000/09/xmldsig#\">")
    );
    assert!(rt; octets.ends_with(b"</ds:SignatureValue>"));
    Ok(())
}
