//! Items that are refused, and with which code. What is expected follows from XML Signature 1.1, section 3.2.

use crate::scene::{LISTED, MISLISTED, Scene, UNLISTED, bent};
use augmenter::{Code, Refusal};
use std::test::Fail;
use xa_io::{Octets, Octs};

// The item that is refused and the number of its code; zeros for another answer.
fn told(answer: &Result<Octs, Refusal>) -> (u32, u8) {
    match answer {
        Err(Refusal::Refused { item, code }) => (*item, code.number()),
        _ => (0, 0),
    }
}

// Whether item 1 is refused for the digest of the first Reference, and two digests are told of which one differs from the other.
fn tells_first_digest(answer: &Result<Octs, Refusal>) -> bool {
    match answer {
        Err(
            Refusal::Refused {
                item: 1,
                code: Code::DigestDiffers { k: 1, got, want },
            },
        ) => got.as_slice().len() == 32
            && want.as_slice().len() == 32
            && got.as_slice() != want.as_slice(),
        _ => false,
    }
}

#[test]
fn a_second_value(rt: HostRuntime) -> Result<(), Fail> {
    let scene = Scene::new(rt.alloc())?;
    let value = scene.value();
    assert!(rt; told(&scene.attached(LISTED, scene.prepared(), &[value, value])?) == (2, 13));
    Ok(())
}

#[test]
fn a_value_that_does_not_verify(rt: HostRuntime) -> Result<(), Fail> {
    let scene = Scene::new(rt.alloc())?;
    let value = bent(rt.alloc(), scene.value())?;
    assert!(rt; told(&scene.attached(LISTED, scene.prepared(), &[value.as_slice()])?) == (1, 19));
    Ok(())
}

#[test]
fn a_text_that_was_changed(rt: HostRuntime) -> Result<(), Fail> {
    let scene = Scene::new(rt.alloc())?;
    let document = scene.changed(">text<", ">test<")?;
    let answer = scene.attached(LISTED, document.as_slice(), &[scene.value()])?;
    assert!(rt; told(&answer) == (1, 15));
    assert!(rt; tells_first_digest(&answer));
    Ok(())
}

#[test]
fn a_certificate_that_was_exchanged(rt: HostRuntime) -> Result<(), Fail> {
    let scene = Scene::new(rt.alloc())?;
    let document = scene.with_other_certificate()?;
    assert!(rt; told(&scene.attached(LISTED, document.as_slice(), &[scene.value()])?) == (1, 16));
    Ok(())
}

#[test]
fn policies_that_refuse(rt: HostRuntime) -> Result<(), Fail> {
    let scene = Scene::new(rt.alloc())?;
    let (document, value) = (scene.prepared(), scene.value());
    assert!(rt; told(&scene.attached(UNLISTED, document, &[value])?) == (1, 17));
    assert!(rt; told(&scene.attached(MISLISTED, document, &[value])?) == (1, 18));
    Ok(())
}

const ONE: &[u8] = b"<r><ds:Signature xmlns:ds=\"http://www.w3.org/2000/09/xmldsig#\"/></r>";

const TWO: &[u8] =
    b"<r xmlns:ds=\"http://www.w3.org/2000/09/xmldsig#\"><ds:Signature/><ds:Signature/></r>";

// Documents without one whole signature, and the codes.
const UNSOUND: [(&[u8], u8); 3] = [(b"<r/>", 1), (TWO, 2), (ONE, 3)];

#[test]
fn documents_without_one_whole_signature(rt: HostRuntime) -> Result<(), Fail> {
    let scene = Scene::new(rt.alloc())?;
    for (document, want) in UNSOUND {
        assert!(rt; told(&scene.attached(LISTED, document, &[scene.value()])?) == (1, want));
    }
    Ok(())
}

const ENVELOPED: &str = "http://www.w3.org/2000/09/xmldsig#enveloped-signature";

const SHA256: &str = "http://www.w3.org/2001/04/xmlenc#sha256";

// The Reference to the element, up to its digest.
const ONE_FORM: &str =
    "URI=\"#x\"><ds:Transforms><ds:Transform Algorithm=\"http://www.w3.org/2001/10/xml-exc-c14n#\"></ds:Transform></ds:Transforms>";

// What is put in place of a part of the prepared document, and the codes: a certificate that isn't whole, and References that name nothing,
// two elements, by an unknown transform, with an unknown digest, octets that aren't handed in, and the place of the value.
const CHANGES: [(&str, &str, u8); 7] = [
    ("<ds:X509Certificate>M", "<ds:X509Certificate>A", 5),
    ("URI=\"#x\"", "URI=\"#y\"", 6),
    ("<r>", "<r id=\"x\">", 7),
    (ENVELOPED, "urn:other", 8),
    (SHA256, "urn:other", 9),
    (ONE_FORM, "URI=\"e\">", 10),
    ("<r><a Id=\"x\">", "<r Id=\"x\"><a>", 12),
];

#[test]
fn documents_that_were_changed(rt: HostRuntime) -> Result<(), Fail> {
    let scene = Scene::new(rt.alloc())?;
    for (old, new, want) in CHANGES {
        let document = scene.changed(old, new)?;
        let answer = scene.attached(LISTED, document.as_slice(), &[scene.value()])?;
        assert!(rt; told(&answer) == (1, want));
    }
    Ok(())
}

#[test]
fn the_first_code_is_told(rt: HostRuntime) -> Result<(), Fail> {
    let scene = Scene::new(rt.alloc())?;
    let value = bent(rt.alloc(), scene.value())?;
    let (signed, changed) = (scene.signed()?, scene.changed(">text<", ">test<")?);
    let values = [value.as_slice()];
    assert!(rt; told(&scene.attached(UNLISTED, signed.as_slice(), &values)?) == (1, 13));
    assert!(rt; told(&scene.attached(UNLISTED, changed.as_slice(), &values)?) == (1, 15));
    Ok(())
}

#[test]
fn what_is_no_document(rt: HostRuntime) -> Result<(), Fail> {
    let scene = Scene::new(rt.alloc())?;
    let answer = scene.attached(LISTED, b"<r", &[scene.value()])?;
    assert!(rt; matches!(answer, Err(Refusal::BadDocument(_))));
    Ok(())
}
