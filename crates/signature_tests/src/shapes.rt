//! The first fault of small signatures, each of which breaks the lines on its outer parts in one place, or two. What is expected follows
//! from XML Signature 1.1, section 4, and EN 319 132-1, clauses 4.3 and 4.4.

use crate::changed::{WHOLE, changed};
use doc_spans::{Doc, Tree};
use signature_elements::{ds, first_called};
use signature_shape::{What, first_fault};
use std::alloc::Global;
use std::test::Fail;
use xa_io::Steps;

struct Ledger;

// A text and what stands in its place, the line that is broken, and what the place of its fault begins with.
type Case = (&'static str, &'static str, What, &'static str);

// Whether the first fault of the changed signature is that of a line, at the first place of a text.
fn fails(alloc: Global, case: &Case) -> Result<bool, Fail> {
    let (old, new, what, at) = *case;
    let text = changed(alloc, old, new)?;
    let bytes = text.as_bytes();
    if bytes.len() > 4000 {
        return Ok(false);
    }
    let mut steps: Steps<Ledger> = Steps::new();
    let tree = Tree::read(alloc, bytes, &mut steps)?;
    let doc = Doc::of(bytes, &tree);
    let Some(signature) = first_called(doc, doc.root(), ds("Signature")) else {
        return Ok(false);
    };
    match first_fault(alloc, doc, signature)? {
        Some(fault) => Ok(
            fault.what == what
                && text.as_str().find(at) == Some(doc.span(fault.node).start as usize),
        ),
        None => Ok(false),
    }
}

fn all_fail(alloc: Global, cases: &[Case]) -> Result<bool, Fail> {
    for case in cases {
        if !fails(alloc, case)? {
            return Ok(false);
        }
    }
    Ok(true)
}

#[test]
fn passes_what_has_no_fault(rt: HostRuntime) -> Result<(), Fail> {
    let bytes = WHOLE.as_bytes();
    assert!(rt; bytes.len() < 4000);
    let mut steps: Steps<Ledger> = Steps::new();
    let tree = Tree::read(rt.alloc(), bytes, &mut steps)?;
    let doc = Doc::of(bytes, &tree);
    let signature = first_called(doc, doc.root(), ds("Signature")).expect(&rt, "a signature");
    let fault = first_fault(rt.alloc(), doc, signature)?;
    assert!(rt; fault.is_none());
    Ok(())
}

const ASKS_FOR_THE_PARTS_CASES: [Case; 4] = [
    (
        "<ds:SignedInfo>",
        "x<ds:SignedInfo>",
        What::Parts,
        "<ds:Signature ",
    ),
    (
        "<ds:SignatureValue>AAAA</ds:SignatureValue>",
        "",
        What::Parts,
        "<ds:Signature ",
    ),
    (
        "<ds:Object>",
        "<ds:KeyInfo/><ds:Object>",
        What::Parts,
        "<ds:KeyInfo/>",
    ),
    (
        "<ds:SignedInfo>",
        "<ds:KeyInfo/><ds:SignedInfo>",
        What::Parts,
        "<ds:KeyInfo/>",
    ),
];

#[test]
fn asks_for_the_parts(rt: HostRuntime) -> Result<(), Fail> {
    assert!(rt; all_fail(rt.alloc(), &ASKS_FOR_THE_PARTS_CASES)?);
    Ok(())
}

const ASKS_FOR_THE_CHILDREN_OF_SIGNED_INFO_CASES: [Case; 3] = [
    ("<ds:SignedInfo>", "<ds:SignedInfo><x/>", What::Info, "<x/>"),
    (
        "<ds:SignedInfo>",
        "<ds:SignedInfo>x",
        What::Info,
        "<ds:SignedInfo>x",
    ),
    (
        "urn:m\"/>",
        "urn:m\">x</ds:SignatureMethod>",
        What::Info,
        "<ds:SignatureMethod ",
    ),
];

#[test]
fn asks_for_the_children_of_signed_info(rt: HostRuntime) -> Result<(), Fail> {
    assert!(rt; all_fail(rt.alloc(), &ASKS_FOR_THE_CHILDREN_OF_SIGNED_INFO_CASES)?);
    Ok(())
}

const ASKS_FOR_METHODS_CASES: [Case; 3] = [
    (
        "exc-c14n#\"",
        "exc-c14n\"",
        What::Form,
        "<ds:CanonicalizationMethod ",
    ),
    (
        "<xades:EncapsulatedTimeStamp>",
        "<ds:CanonicalizationMethod/><xades:EncapsulatedTimeStamp>",
        What::Form,
        "<ds:CanonicalizationMethod/>",
    ),
    (
        " Algorithm=\"urn:m\"",
        "",
        What::Method,
        "<ds:SignatureMethod/>",
    ),
];

#[test]
fn asks_for_methods(rt: HostRuntime) -> Result<(), Fail> {
    assert!(rt; all_fail(rt.alloc(), &ASKS_FOR_METHODS_CASES)?);
    Ok(())
}

const ASKS_FOR_REFERENCES_CASES: [Case; 3] = [
    (" URI=\"#d\"", "", What::Reference, "<ds:Reference "),
    ("AAAA", "AA A", What::Reference, "<ds:DigestValue>"),
    (
        "</ds:Reference>",
        "<ds:Transforms/></ds:Reference>",
        What::Reference,
        "<ds:Transforms/>",
    ),
];

#[test]
fn asks_for_references(rt: HostRuntime) -> Result<(), Fail> {
    assert!(rt; all_fail(rt.alloc(), &ASKS_FOR_REFERENCES_CASES)?);
    Ok(())
}

const ASKS_FOR_THE_QUALIFYING_PROPERTIES_CASES: [Case; 3] = [
    (
        "Target=\"#s\"",
        "Target=\"#t\"",
        What::Qualifying,
        "<xades:QualifyingProperties ",
    ),
    ("Id=\"s\"", "", What::Qualifying, "<ds:Signature "),
    (
        "</ds:Object>",
        "x</ds:Object>",
        What::Qualifying,
        "<ds:Object>",
    ),
];

#[test]
fn asks_for_the_qualifying_properties(rt: HostRuntime) -> Result<(), Fail> {
    assert!(rt; all_fail(rt.alloc(), &ASKS_FOR_THE_QUALIFYING_PROPERTIES_CASES)?);
    Ok(())
}

const ASKS_FOR_THE_PROPERTIES_CASES: [Case; 2] = [
    (
        " Id=\"s-sp\"",
        "",
        What::Properties,
        "<xades:SignedProperties>",
    ),
    (
        "</xades:UnsignedProperties>",
        "<x/></xades:UnsignedProperties>",
        What::Properties,
        "<x/>",
    ),
];

#[test]
fn asks_for_the_properties(rt: HostRuntime) -> Result<(), Fail> {
    assert!(rt; all_fail(rt.alloc(), &ASKS_FOR_THE_PROPERTIES_CASES)?);
    Ok(())
}

const GIVES_THE_FIRST_PLACE_AND_THE_FIRST_LINE_THERE_CASES: [Case; 2] = [
    (
        "</ds:SignedInfo>",
        "<x/></ds:SignedInfo><ds:SignedInfo/>",
        What::Info,
        "<x/>",
    ),
    (" Id=\"s\">", ">x", What::Parts, "<ds:Signature "),
];

#[test]
fn gives_the_first_place_and_the_first_line_there(rt: HostRuntime) -> Result<(), Fail> {
    assert!(rt;
        all_fail(
            rt.alloc(),
            &GIVES_THE_FIRST_PLACE_AND_THE_FIRST_LINE_THERE_CASES
        )?
    );
    Ok(())
}
