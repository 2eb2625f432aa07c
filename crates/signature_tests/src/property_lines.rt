//! The lines on the signed and the unsigned properties: documents that break one of them, and the place at which each is broken.

ghost use Rattle.std.specs.Prelude.{IfOk};
ghost use Rattle.doc_spans.specs.Seen.{Has};
ghost use Rattle.signature_parts.specs.Places.{IsWithin};

use crate::changed::changed;
use doc_spans::{Doc, NodeId, Tree};
use inner_lines::{
    covered_line, data_object_line, key_line, signed_line, stamp_line, value_line, values_line,
};
use signature_elements::{ds, first_called};
use signature_parts::FirstPlace;
use signature_shape::What;
use std::alloc::Global;
use std::test::Fail;
use xa_io::{OutOfMemory, Steps};

struct Ledger;

// A text and what stands in its place, and what the first place of the line begins with; where that is empty, there is none.
type Case = (&'static str, &'static str, &'static str);

// The first place of one of the lines that are tried here.
fn line_place(
    alloc: Global,
    line: What,
    doc: Doc<'_>,
    signature: NodeId,
) -> Result<FirstPlace, OutOfMemory>
    requires { Has doc signature }
    ensures { IfOk result (IsWithin doc.entry) }
{
    match line {
        What::Covered => Ok(covered_line(doc, signature)),
        What::Signed => Ok(signed_line(doc, signature)),
        What::DataObject => {
            let place = data_object_line(alloc, doc, signature)?;
            Ok(place)
        }
        What::Key => Ok(key_line(doc, signature)),
        What::Value => Ok(value_line(doc, signature)),
        What::Stamp => Ok(stamp_line(doc, signature)),
        _ => Ok(values_line(doc, signature)),
    }
}

// Where a place begins.
fn start_of(doc: Doc<'_>, place: FirstPlace) -> Option<usize>
    requires { IsWithin doc place }
{
    match place.node() {
        Some(node) => Some(doc.span(node).start as usize),
        None => None,
    }
}

// Whether the first place of a line in the changed signature is where it is expected.
fn fails(alloc: Global, line: What, case: &Case) -> Result<bool, Fail> {
    let (old, new, at) = *case;
    let text = changed(alloc, old, new)?;
    let bytes = text.as_bytes();
    if bytes.len() > 16777216 {
        return Ok(false);
    }
    let mut steps: Steps<Ledger> = Steps::new();
    let tree = Tree::read(alloc, bytes, &mut steps)?;
    let doc = Doc::of(bytes, &tree);
    match first_called(doc, doc.root(), ds("Signature")) {
        Some(signature) => {
            let place = line_place(alloc, line, doc, signature)?;
            Ok(start_of(doc, place) == expected_start(text.as_str(), at))
        }
        None => Ok(false),
    }
}

fn all_fail(alloc: Global, line: What, cases: &[Case]) -> Result<bool, Fail> {
    for case in cases {
        if !fails(alloc, line, case)? {
            return Ok(false);
        }
    }
    Ok(true)
}

fn expected_start(text: &str, at: &str) -> Option<usize> {
    if at.is_empty() { None } else { text.find(at) }
}

const COVERS_THE_SIGNED_PROPERTIES_CASES: [Case; 5] = [
    ("nothing of it", "", ""),
    (
        " Type=\"http://uri.etsi.org/01903#SignedProperties\"",
        "",
        "<ds:Reference Id=",
    ),
    ("URI=\"#s-sp\"", "URI=\"#t\"", "<ds:Reference Type="),
    (
        "</ds:SignedInfo>",
        "<ds:Reference Id=\"x\" Type=\"http://uri.etsi.org/01903#SignedProperties\"/></ds:SignedInfo>",
        "<ds:Reference Id=\"x\"",
    ),
    (
        "URI=\"#s-sp\">",
        "URI=\"#s-sp\"><ds:Transforms><ds:Transform Algorithm=\"u\"/><ds:Transform Algorithm=\"http://www.w3.org/2000/09/xmldsig#base64\"/></ds:Transforms>",
        "<ds:Transform Algorithm=\"http://www.w3.org/2000/09/xmldsig#base64\"/>",
    ),
];

#[test]
fn covers_the_signed_properties(rt: HostRuntime) -> Result<(), Fail> {
    assert!(rt;
        all_fail(
            rt.alloc(),
            What::Covered,
            &COVERS_THE_SIGNED_PROPERTIES_CASES
        )?
    );
    Ok(())
}

const HAS_SIGNED_PROPERTIES_OF_THE_SIGNATURE_CASES: [Case; 6] = [
    ("nothing of it", "", ""),
    (
        "<xades:SigningTime>T</xades:SigningTime>",
        "",
        "<xades:SignedSignatureProperties>",
    ),
    (
        "<xades:SigningTime>T",
        "<xades:SigningTime> ",
        "<xades:SigningTime>",
    ),
    (
        "</xades:SigningTime>",
        "</xades:SigningTime><xades:SigningTime z=\"\"/>",
        "<xades:SigningTime z",
    ),
    (
        "xmlenc#sha512\"",
        "xmlenc#sha1\"",
        "<ds:DigestMethod Algorithm=\"http://www.w3.org/2001/04/xmlenc#sha1\"",
    ),
    ("9U+W", "9U+", "<ds:DigestValue>9U+"),
];

#[test]
fn has_signed_properties_of_the_signature(rt: HostRuntime) -> Result<(), Fail> {
    assert!(rt;
        all_fail(
            rt.alloc(),
            What::Signed,
            &HAS_SIGNED_PROPERTIES_OF_THE_SIGNATURE_CASES
        )?
    );
    Ok(())
}

const HAS_FORMATS_OF_DATA_OBJECTS_CASES: [Case; 5] = [
    ("nothing of it", "", ""),
    (
        "<ds:Reference Id=\"s-r1\"",
        "<ds:Reference",
        "<ds:Reference URI",
    ),
    ("#s-r1", "#s-r2", "<xades:SignedDataObjectProperties>"),
    (
        "</xades:DataObjectFormat>",
        "</xades:DataObjectFormat><xades:DataObjectFormat z=\"\" ObjectReference=\"#s-&#114;1\"/>\
<xades:DataObjectFormat ObjectReference=\"#s-r1\"/>",
        "<xades:DataObjectFormat z",
    ),
    ("<xades:MimeType>m", "<xades:MimeType> ", "<xades:MimeType>"),
];

#[test]
fn has_formats_of_data_objects(rt: HostRuntime) -> Result<(), Fail> {
    assert!(rt;
        all_fail(
            rt.alloc(),
            What::DataObject,
            &HAS_FORMATS_OF_DATA_OBJECTS_CASES
        )?
    );
    Ok(())
}

const HAS_A_CERTIFICATE_CASES: [Case; 4] = [
    ("nothing of it", "", ""),
    (
        "<ds:X509Certificate>MAE=</ds:X509Certificate>",
        "",
        "<ds:X509Data>",
    ),
    (
        "<ds:X509Data><ds:X509Certificate>MAE=</ds:X509Certificate></ds:X509Data>",
        "",
        "<ds:KeyInfo>",
    ),
    ("MAE=", "M<x/>", "<ds:X509Certificate>"),
];

#[test]
fn has_a_certificate(rt: HostRuntime) -> Result<(), Fail> {
    assert!(rt; all_fail(rt.alloc(), What::Key, &HAS_A_CERTIFICATE_CASES)?);
    Ok(())
}

const HAS_A_VALUE_CASES: [Case; 3] = [
    ("nothing of it", "", ""),
    (
        "<ds:SignatureValue>AAAA",
        "<ds:SignatureValue>AAA",
        "<ds:SignatureValue>",
    ),
    ("<ds:SignatureValue>AAAA", "<ds:SignatureValue> ", ""),
];

#[test]
fn has_a_value(rt: HostRuntime) -> Result<(), Fail> {
    assert!(rt; all_fail(rt.alloc(), What::Value, &HAS_A_VALUE_CASES)?);
    Ok(())
}

const HAS_A_TOKEN_IN_EACH_STAMP_CASES: [Case; 5] = [
    ("nothing of it", "", ""),
    (
        "<xades:SignatureTimeStamp>",
        "<xades:SignatureTimeStamp><xades:Include URI=\"#a\"/>",
        "",
    ),
    (
        "<xades:SignatureTimeStamp>",
        "<xades:SignatureTimeStamp><x/>",
        "<x/>",
    ),
    (
        "<xades:EncapsulatedTimeStamp>MAM=</xades:EncapsulatedTimeStamp>",
        "",
        "<xades:SignatureTimeStamp>",
    ),
    (
        "<xades:EncapsulatedTimeStamp>MAM=",
        "<xades:EncapsulatedTimeStamp>M<!--c-->AM=",
        "<xades:EncapsulatedTimeStamp>",
    ),
];

#[test]
fn has_a_token_in_each_stamp(rt: HostRuntime) -> Result<(), Fail> {
    assert!(rt; all_fail(rt.alloc(), What::Stamp, &HAS_A_TOKEN_IN_EACH_STAMP_CASES)?);
    Ok(())
}

const HAS_VALUES_ONCE_CASES: [Case; 5] = [
    ("nothing of it", "", ""),
    (
        "<xades:RevocationValues>",
        "<xades:RevocationValues z=\"\"/><xades:RevocationValues>",
        "<xades:RevocationValues>",
    ),
    (
        "<xades:RevocationValues>",
        "<b:TimeStampValidationData xmlns:b=\"http://uri.etsi.org/01903/v1.4.1#\"><xades:RevocationValues/></b:TimeStampValidationData><xades:RevocationValues>",
        "",
    ),
    (
        "<xades:CRLValues>",
        "<xades:CRLValues>x",
        "<xades:CRLValues>",
    ),
    ("</ds:Transform>", "x</ds:Transform>", "<ds:Transform "),
];

#[test]
fn has_values_once(rt: HostRuntime) -> Result<(), Fail> {
    assert!(rt; all_fail(rt.alloc(), What::Values, &HAS_VALUES_ONCE_CASES)?);
    Ok(())
}
