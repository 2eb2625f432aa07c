//! Shelves and sinks that fail, and files that are too long.

use crate::canon::CANON;
use crate::runs::{Failing, NONE, answer_of, is};
use std::test::Fail;

#[test]
fn a_read_that_fails_is_told(rt: HostRuntime) -> Result<(), Fail> {
    // four bytes, one a call, and the end
    'calls: for shelf in 1..6 {
        let failing = Failing { shelf, ..NONE };
        let answer = answer_of(&rt, CANON, b"<a/>", 1, &failing)?;
        assert!(rt;
            is(&answer, 4, b"", b"xades: read fault: a\n"),
            "call {shelf}"
        );
    }
    let failing = Failing { shelf: 6, ..NONE };
    let answer = answer_of(&rt, CANON, b"<a/>", 1, &failing)?;
    assert!(rt; is(&answer, 0, b"<a></a>", b""));
    Ok(())
}

#[test]
fn a_write_that_fails_gives_a_first_part(rt: HostRuntime) -> Result<(), Fail> {
    'kept: for (keep, out) in [(0, b"" as &[u8]), (3, b"<a>"), (9, b"<a></a>")] {
        let failing = Failing {
            out: (1, keep),
            ..NONE
        };
        let answer = answer_of(&rt, CANON, b"<a/>", 100, &failing)?;
        assert!(rt;
            is(&answer, 5, out, b"xades: write fault\n"),
            "{keep} bytes"
        );
    }
    let failing = Failing {
        out: (2, 3),
        ..NONE
    };
    let answer = answer_of(&rt, CANON, b"<a/>", 100, &failing)?;
    assert!(rt; is(&answer, 0, b"<a></a>", b""));
    Ok(())
}

// Calls of the error output that fail, how many bytes they take, and what it was given then.
const LINES: &[(u64, usize, &[u8])] = &[
    (1, 4, b"xade"),
    (2, 0, b"xades: document fault "),
    (3, 3, b"xades: document fault 5 at"),
    (4, 0, b"xades: document fault 5 at "),
    (5, 0, b"xades: document fault 5 at 3"),
    (6, 0, b"xades: document fault 5 at 3\n"),
];

#[test]
fn a_line_that_fails_changes_no_status(rt: HostRuntime) -> Result<(), Fail> {
    'calls: for (call, keep, err) in LINES {
        let failing = Failing {
            err: (*call, *keep),
            ..NONE
        };
        let answer = answer_of(&rt, CANON, b"<a>", 100, &failing)?;
        assert!(rt; is(&answer, 7, b"", err), "call {call}");
    }
    Ok(())
}

#[test]
fn a_document_of_16_mebibytes_and_a_byte_is_too_long(rt: HostRuntime) -> Result<(), Fail> {
    let document = vec![in rt.alloc(); b' '; 16777217]?;
    let answer = answer_of(&rt, CANON, document.as_slice(), 1048576, &NONE)?;
    assert!(rt; is(&answer, 6, b"", b"xades: too long: a\n"));
    Ok(())
}
