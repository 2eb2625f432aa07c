//! Tests of `prepare`. The digests were worked out with OpenSSL, and the certificate by a program of another language.

use crate::runs::{Answer, NONE, answer_of, is, words_of};
use base64::engine::general_purpose::STANDARD;
use std::alloc::Global;
use std::test::Fail;
use xa_io::{MemShelf, MemSink, Octs};
use xades_cli::run;

// A certificate with an HSS key, in base64.
const CERTIFICATE: &str =
    "MIGtMIGWoAMCAQICAQcwDQYLKoZIhvcNAQkQAxEwDTELMAkGA1UEAwwCSzEwIBcNMzAwMTAxMDAwMDAwWhgPMjA3MDAxMDEwMDAwMDBaMA0xCzAJBgNVBAMMAksxMBUwDQYLKoZIhvcNAQkQAxEDBAABAgOjJjAkMBIGA1UdEwEB/wQIMAYBAf8CAQMwDgYDVR0PAQH/BAQDAgIEMA0GCyqGSIb3DQEJEAMRAwMACQk=";

// The methods that the policy lists.
const TABLES: &str =
    "[[kind]]\nname = \"hss\"\nuri = [\"urn:sample:hss\"]\n[[kind]]\nname = \"xmss\"\nuri = [\"urn:sample:xmss\"]\n[[digest]]\nname = \"sha256\"\n";

// What the file of the policy holds: the line of its version, and an anchor in base64.
pub(crate) type PolicyText = (&'static str, &'static str);

pub(crate) const WHOLE: PolicyText = ("version = 1\n", CERTIFICATE);

const NO_VERSION: PolicyText = ("", CERTIFICATE);

// The anchor ends behind three bytes.
const CUT_ANCHOR: PolicyText = ("version = 1\n", "MIGt");

// What the file of the certificate holds.
#[derive(Clone, Copy)]
pub(crate) enum Certificates {
    None,
    Cut,
    One,
    Two,
}

// A run, and the number and the line that it must come to.
#[derive(Clone, Copy)]
pub(crate) struct Row {
    document: &'static [u8],
    policy: PolicyText,
    certificates: Certificates,
    id: &'static str,
    method: &'static str,
    uri: &'static str,
    number: u8,
    err: &'static [u8],
}

pub(crate) const USUAL: Row = Row {
    document: b"<r/>",
    policy: WHOLE,
    certificates: Certificates::One,
    id: "id=s",
    method: "method=urn:sample:hss",
    uri: "ref=",
    number: 0,
    err: b"",
};

pub(crate) fn policy_text(alloc: Global, text: PolicyText) -> Result<String, Fail> {
    let (version, anchor) = text;
    Ok(format!(in alloc; "{version}anchors = [\"{anchor}\"]\n{TABLES}")?)
}

fn certificate_file(alloc: Global, certificates: Certificates) -> Result<Octs, Fail> {
    let one = STANDARD.decode(alloc, CERTIFICATE.as_bytes())?;
    let mut file = Octs::new(alloc);
    match certificates {
        Certificates::None => {}
        Certificates::Cut => file.push_all(&one.as_slice()[..one.len().saturating_sub(1)])?,
        Certificates::One => file.push_all(one.as_slice())?,
        Certificates::Two => {
            file.push_all(one.as_slice())?;
            file.push_all(one.as_slice())?;
        }
    }
    Ok(file)
}

// Runs words over a shelf with the files of a row, and three bytes as `e`.
fn ran(rt: &HostRuntime, row: &Row, texts: &[&str]) -> Result<Answer, Fail> {
    let words = words_of(rt, texts)?;
    let mut shelf = MemShelf::new(rt.alloc(), 1000);
    shelf.add("a", row.document)?;
    shelf.add("p", policy_text(rt.alloc(), row.policy)?.as_bytes())?;
    shelf.add(
        "c",
        certificate_file(rt.alloc(), row.certificates)?.as_slice(),
    )?;
    shelf.add("e", b"abc")?;
    let mut out = MemSink::new(rt.alloc(), 8000)?;
    let mut err = MemSink::new(rt.alloc(), 100)?;
    let status = run(rt.alloc(), &words, &mut shelf, &mut out, &mut err);
    Ok(Answer {
        number: status.number(),
        out,
        err,
    })
}

// Prepares the document of a row with its URI and that of three bytes that are handed in.
pub(crate) fn prepared(rt: &HostRuntime, row: &Row) -> Result<Answer, Fail> {
    let words = &[
        "prepare",
        "doc=a",
        "policy=p",
        "cert=c",
        "time=2030-01-01T00:00:00Z",
        row.id,
        row.method,
        "digest=sha256",
        row.uri,
        "ref=e",
    ];
    ran(rt, row, words)
}

// The number of the first row that comes to something else, from 1; 0 where there is none.
fn first_other(rt: &HostRuntime, rows: &[Row]) -> Result<usize, Fail> {
    for (number, row) in rows.iter().enumerate() {
        if !is(&prepared(rt, row)?, row.number, b"", row.err) {
            return Ok(number.saturating_add(1));
        }
    }
    Ok(0)
}

// Whether a text stands somewhere in octets.
fn holds(octets: &[u8], part: &[u8]) -> bool {
    for at in 0..octets.len() {
        if octets[at..].starts_with(part) {
            return true;
        }
    }
    false
}

// Whether it is the document with a signature as the last child of its one element.
fn is_signed(document: &[u8]) -> bool {
    document.starts_with(b"<r><ds:Signature xmlns:ds=")
        && document.ends_with(b"</ds:Signature></r>")
}

#[test]
fn a_document_is_prepared(rt: HostRuntime) -> Result<(), Fail> {
    let answer = prepared(&rt, &USUAL)?;
    let document = answer.out.as_slice();
    assert!(rt; answer.number == 0 && is_signed(document));
    assert!(rt; holds(document, b">INE/am0XrdS7VxGcSDwRDfdncEX4dGZ6AYqycC4vYkc=<"));
    assert!(rt; holds(document, b">ungWv48Bz+pBQUDeXa4iI7ADYaOWF3qctBD/YfIAFa0=<"));
    Ok(())
}

#[test]
fn a_prepared_document_can_be_signed(rt: HostRuntime) -> Result<(), Fail> {
    let document = prepared(&rt, &USUAL)?;
    let words = &["octets", "doc=a", "for=signature", "ext=e"];
    let answer = answer_of(&rt, words, document.out.as_slice(), 1000, &NONE)?;
    let octets = answer.out.as_slice();
    assert!(rt; answer.number == 0 && octets.starts_with(b"<ds:SignedInfo xmlns:ds="));
    Ok(())
}

#[test]
fn policies_that_are_none(rt: HostRuntime) -> Result<(), Fail> {
    let rows = [
        Row {
            policy: NO_VERSION,
            number: 8,
            err: b"xades: policy fault 2: version\n",
            ..USUAL
        },
        Row {
            policy: CUT_ANCHOR,
            number: 8,
            err: b"xades: policy fault 3: 1\n",
            ..USUAL
        },
    ];
    assert!(rt; first_other(&rt, &rows)? == 0);
    Ok(())
}

// A run with this file of the certificate, which is told to be bad.
fn bad(certificates: Certificates, err: &'static [u8]) -> Row {
    Row {
        certificates,
        number: 9,
        err,
        ..USUAL
    }
}

#[test]
fn files_that_are_no_certificate(rt: HostRuntime) -> Result<(), Fail> {
    let rows = [
        bad(Certificates::None, b"xades: data fault: c at 0\n"),
        bad(Certificates::Cut, b"xades: data fault: c at 0\n"),
        bad(Certificates::Two, b"xades: data fault: c at 176\n"),
    ];
    assert!(rt; first_other(&rt, &rows)? == 0);
    Ok(())
}

#[test]
fn what_is_judged_first(rt: HostRuntime) -> Result<(), Fail> {
    let rows = [
        Row {
            policy: NO_VERSION,
            document: b"<r",
            number: 8,
            ..bad(Certificates::None, b"xades: policy fault 2: version\n")
        },
        Row {
            document: b"<r",
            number: 7,
            ..bad(Certificates::None, b"xades: document fault 1 at 0\n")
        },
        Row {
            method: "method=urn:other",
            ..bad(Certificates::None, b"xades: data fault: c at 0\n")
        },
    ];
    assert!(rt; first_other(&rt, &rows)? == 0);
    Ok(())
}

// A run that is refused as item 0.
fn refused(document: &'static [u8], uri: &'static str, err: &'static [u8]) -> Row {
    Row {
        document,
        uri,
        number: 10,
        err,
        ..USUAL
    }
}

const SIGNED: &[u8] = b"<r><ds:Signature xmlns:ds=\"http://www.w3.org/2000/09/xmldsig#\"/></r>";

const TWO: &[u8] = b"<r><a Id=\"x\"/><b id=\"x\"/></r>";

#[test]
fn documents_that_are_refused(rt: HostRuntime) -> Result<(), Fail> {
    let rows = [
        refused(SIGNED, "ref=", b"xades: item 0 refused: A2\n"),
        refused(b"<r/>", "ref=#x", b"xades: item 0 refused: A6\n"),
        refused(TWO, "ref=#x", b"xades: item 0 refused: A7\n"),
        refused(b"<r Id=\"x\"/>", "ref=#x", b"xades: item 0 refused: A12\n"),
        refused(b"<r Id=\"s-r1\"/>", "ref=", b"xades: item 0 refused: A29\n"),
    ];
    assert!(rt; first_other(&rt, &rows)? == 0);
    Ok(())
}

#[test]
fn methods_that_are_refused(rt: HostRuntime) -> Result<(), Fail> {
    let rows = [
        Row {
            method: "method=urn:other",
            number: 10,
            err: b"xades: item 0 refused: A17\n",
            ..USUAL
        },
        Row {
            method: "method=urn:sample:xmss",
            number: 10,
            err: b"xades: item 0 refused: A18\n",
            ..USUAL
        },
    ];
    assert!(rt; first_other(&rt, &rows)? == 0);
    Ok(())
}
