//! A document that is prepared, and those that are refused. The digests were worked out with OpenSSL.

use crate::scene::{Scene, Wish};
use augmenter::{Code, Refusal};
use std::test::Fail;
use xa_io::Octs;

const WHOLE: Wish<'static> = Wish {
    id: "s",
    method: "urn:sample:hss",
    uri: "",
};

const ELEMENT: Wish<'static> = Wish {
    id: "s",
    method: "urn:sample:hss",
    uri: "#x",
};

// Whether a text stands somewhere in octets.
fn holds(octets: &[u8], part: &[u8]) -> bool {
    for at in 0..octets.len() {
        if octets[at..].starts_with(part) {
            return true;
        }
    }
    false
}

fn is_signed(document: &[u8]) -> bool {
    document.starts_with(b"<r><ds:Signature xmlns:ds=")
        && document.ends_with(b"</ds:Signature></r>")
}

#[test]
fn a_document_is_prepared(rt: HostRuntime) -> Result<(), Fail> {
    let scene = Scene::new(rt.alloc())?;
    let Ok(document) = scene.prepared(b"<r/>", WHOLE)? else {
        return Err(Fail::new("refused"));
    };
    let document = document.as_slice();
    assert!(rt; is_signed(document));
    assert!(rt; holds(document, b">INE/am0XrdS7VxGcSDwRDfdncEX4dGZ6AYqycC4vYkc=<"));
    assert!(rt; holds(document, b">ungWv48Bz+pBQUDeXa4iI7ADYaOWF3qctBD/YfIAFa0=<"));
    Ok(())
}

// The number of the code by which a draft is refused, at the first URI where it is one on URIs; 0 for another answer.
fn number(answer: &Result<Octs, Refusal>) -> u8 {
    match answer {
        Err(Refusal::Refused { item: 0, code }) => match code {
            Code::TargetMissing { k } | Code::TargetTwice { k } | Code::SelfCover { k }
                if *k != 1 => 0,
            _ => code.number(),
        },
        _ => 0,
    }
}

#[test]
fn documents_that_are_no_documents(rt: HostRuntime) -> Result<(), Fail> {
    let scene = Scene::new(rt.alloc())?;
    let answer = scene.prepared(b"<r", WHOLE)?;
    assert!(rt; matches!(answer, Err(Refusal::BadDocument(_))));
    Ok(())
}

const SIGNED: &[u8] = b"<r><ds:Signature xmlns:ds=\"http://www.w3.org/2000/09/xmldsig#\"/></r>";

// Documents that are refused where the first URI is `#x`, and the codes.
const ROWS: [(&[u8], u8); 5] = [
    (SIGNED, 2),
    (b"<r/>", 6),
    (b"<r><a Id=\"x\"/><b id=\"x\"/></r>", 7),
    (b"<r Id=\"x\"/>", 12),
    (b"<r><a Id=\"x\"/><b Id=\"s-sp\"/></r>", 29),
];

#[test]
fn documents_that_are_refused(rt: HostRuntime) -> Result<(), Fail> {
    let scene = Scene::new(rt.alloc())?;
    for (document, want) in ROWS {
        assert!(rt; number(&scene.prepared(document, ELEMENT)?) == want);
    }
    Ok(())
}

#[test]
fn methods_that_are_refused(rt: HostRuntime) -> Result<(), Fail> {
    let scene = Scene::new(rt.alloc())?;
    for (method, want) in [("urn:other", 17), ("urn:sample:xmss", 18)] {
        let wish = Wish {
            id: "s",
            method,
            uri: "",
        };
        assert!(rt; number(&scene.prepared(b"<r/>", wish)?) == want);
    }
    Ok(())
}
