//! Whole signatures. What is expected follows from XML Signature 1.1, section 4, and EN 319 132-1, clauses 4 and 5.

ghost use Rattle.std.specs.Prelude.{IfSome};
ghost use Rattle.signature_elements.specs.Standing.{IsThere};

use crate::documents::{texts_of, with_bad, with_few, with_many};
use crate::objects::{Objects, digest_of, made};
use algorithms::DigestKind;
use doc_spans::{Doc, NodeId, Tree};
use qualifying_props::{PartFault, PropertyKind, SignatureParts, read_signature};
use signature_elements::{called, ds, elements, first_called, xades};
use std::test::Fail;
use xa_io::Steps;

struct Ledger;

// The element in which an Object holds the unsigned signature properties.
fn host_in(doc: Doc<'_>, object: NodeId) -> Option<NodeId>
    requires { IsThere doc object }
    ensures { IfSome result (IsThere doc.entry) }
{
    let qualifying = first_called(doc, object, xades("QualifyingProperties"))?;
    let unsigned = first_called(doc, qualifying, xades("UnsignedProperties"))?;
    first_called(doc, unsigned, xades("UnsignedSignatureProperties"))
}

// The second Object, which has the properties.
fn holder(doc: Doc<'_>, signature: NodeId) -> Option<NodeId>
    requires { IsThere doc signature }
    ensures { IfSome result (IsThere doc.entry) }
{
    let mut objects = called(doc, signature, ds("Object"));
    let _first = objects.next()?;
    objects.next()
}

// The token of a property.
fn token_of(parts: &SignatureParts, number: usize) -> Option<&[u8]> {
    if number < parts.properties() {
        parts.token(number)
    } else {
        None
    }
}

// A certificate or a list of a property.
fn part_of(parts: &SignatureParts, property: usize, number: usize) -> Option<&[u8]> {
    if property < parts.properties() && number < parts.parts_in(property) {
        Some(parts.part_in(property, number))
    } else {
        None
    }
}

fn key_cert_of(parts: &SignatureParts, number: usize) -> Option<&[u8]> {
    if number < parts.key_certs() {
        Some(parts.key_cert(number))
    } else {
        None
    }
}

fn kind_of(parts: &SignatureParts, number: usize) -> Option<PropertyKind> {
    if number < parts.properties() {
        Some(parts.property_kind(number))
    } else {
        None
    }
}

fn property_of(parts: &SignatureParts, number: usize) -> Option<NodeId> {
    if number < parts.properties() {
        Some(parts.property_node(number))
    } else {
        None
    }
}

// Whether the properties are the six elements of the host, in their order.
fn are_properties(doc: Doc<'_>, parts: &SignatureParts, host: NodeId) -> bool
    requires { IsThere doc host }
{
    let mut properties = elements(doc, host);
    property_of(parts, 0) == properties.next()
        && property_of(parts, 1) == properties.next()
        && property_of(parts, 2) == properties.next()
        && property_of(parts, 3) == properties.next()
        && property_of(parts, 4) == properties.next()
        && property_of(parts, 5) == properties.next()
        && properties.next().is_none()
}

// Whether the first level is that of the signature: three parts, the two Objects without the properties, and nothing else.
fn are_parts(doc: Doc<'_>, parts: &SignatureParts, signature: NodeId) -> bool
    requires { IsThere doc signature }
{
    let mut children = elements(doc, signature);
    parts.signature() == signature
        && children.next() == Some(parts.signed_info())
        && children.next() == Some(parts.value_node())
        && children.next() == Some(parts.key_info())
        && parts.objects() == 2
        && children.next() == Some(parts.object_node(0))
        && children.next().is_some()
        && children.next() == Some(parts.object_node(1))
        && children.next().is_none()
}

// Whether SignedInfo has the method, another method and the two References.
fn are_references(doc: Doc<'_>, parts: &SignatureParts, signed_info: NodeId) -> bool
    requires { IsThere doc signed_info }
{
    let mut children = elements(doc, signed_info);
    children.next() == Some(parts.method_node())
        && children.next().is_some()
        && parts.references() == 2
        && children.next() == Some(parts.reference_node(1))
        && children.next() == Some(parts.reference_node(2))
        && children.next().is_none()
}

// Whether the properties are those of all kinds, with what they hold.
fn has_values(parts: &SignatureParts, objects: &Objects) -> bool {
    let (token, list) = (
        Some(objects.token.as_slice()),
        Some(objects.list.as_slice()),
    );
    let (authority, signer) = (
        Some(objects.authority.as_slice()),
        Some(objects.signer.as_slice()),
    );
    token_of(parts, 0) == token
        && part_of(parts, 0, 0).is_none()
        && token_of(parts, 1).is_none()
        && part_of(parts, 1, 0).is_none()
        && token_of(parts, 2).is_none()
        && part_of(parts, 2, 0) == authority
        && part_of(parts, 2, 1) == signer
        && part_of(parts, 2, 2).is_none()
        && part_of(parts, 3, 0) == list
        && part_of(parts, 3, 1).is_none()
        && part_of(parts, 4, 0) == authority
        && part_of(parts, 4, 1) == signer
        && part_of(parts, 4, 2) == list
        && part_of(parts, 4, 3).is_none()
        && token_of(parts, 5) == token
}

fn has_kinds(parts: &SignatureParts) -> bool {
    kind_of(parts, 0) == Some(PropertyKind::SignatureStamp)
        && kind_of(parts, 1) == Some(PropertyKind::Passed)
        && kind_of(parts, 2) == Some(PropertyKind::Material)
        && kind_of(parts, 3) == Some(PropertyKind::Material)
        && kind_of(parts, 4) == Some(PropertyKind::Material)
        && kind_of(parts, 5) == Some(PropertyKind::ArchiveStamp)
        && parts.properties() == 6
}

fn has_method_and_value(parts: &SignatureParts) -> bool {
    parts.method() == "urn:m&\u{e9}"
        && parts.value() == [1u8, 2, 3].as_slice()
        && parts.has_values()
}

#[test]
fn reads_a_signature_with_all_kinds_of_properties(rt: HostRuntime) -> Result<(), Fail> {
    let alloc = rt.alloc();
    let objects = made(alloc)?;
    let texts = texts_of(alloc, &objects)?;
    let text = with_many(alloc, &texts)?;
    let bytes = text.as_bytes();
    assert!(rt; bytes.len() < 1_000_000);
    let mut steps: Steps<Ledger> = Steps::new();
    let tree = Tree::read(alloc, bytes, &mut steps)?;
    let doc = Doc::of(bytes, &tree);
    let signature = first_called(doc, doc.root(), ds("Signature")).expect(&rt, "a signature");
    let info = first_called(doc, signature, ds("SignedInfo")).expect(&rt, "a SignedInfo");
    let holder = holder(doc, signature).expect(&rt, "an Object");
    let host = host_in(doc, holder).expect(&rt, "a host");
    let Ok(parts) = read_signature(alloc, doc) else {
        return Err(Fail::new("no parts"));
    };
    assert!(rt; are_parts(doc, &parts, signature) && are_references(doc, &parts, info));
    assert!(rt; parts.host() == host && are_properties(doc, &parts, host));
    assert!(rt; has_kinds(&parts) && has_values(&parts, &objects) && has_method_and_value(&parts));
    Ok(())
}

fn has_key_certs(parts: &SignatureParts, objects: &Objects) -> bool {
    let signer = Some(objects.signer.as_slice());
    parts.key_certs() == 3
        && key_cert_of(parts, 0) == Some(objects.authority.as_slice())
        && key_cert_of(parts, 1) == signer
        && key_cert_of(parts, 2) == signer
}

// Whether the second certificate is the first that has the digest.
fn names_signer(parts: &SignatureParts, signer: &[u8]) -> bool {
    matches!(parts.cert_digest_kind(), DigestKind::Sha256)
        && parts.cert_digest() == digest_of(signer).as_slice()
        && parts.signing_cert() == Some(1)
}

#[test]
fn finds_the_signing_certificate(rt: HostRuntime) -> Result<(), Fail> {
    let alloc = rt.alloc();
    let objects = made(alloc)?;
    let texts = texts_of(alloc, &objects)?;
    let text = with_many(alloc, &texts)?;
    let bytes = text.as_bytes();
    assert!(rt; bytes.len() < 1_000_000);
    let mut steps: Steps<Ledger> = Steps::new();
    let tree = Tree::read(alloc, bytes, &mut steps)?;
    let Ok(parts) = read_signature(alloc, Doc::of(bytes, &tree)) else {
        return Err(Fail::new("no parts"));
    };
    assert!(rt; has_key_certs(&parts, &objects));
    assert!(rt; names_signer(&parts, objects.signer.as_slice()));
    Ok(())
}

fn has_little(parts: &SignatureParts) -> bool {
    parts.value().is_empty() && !parts.has_values() && parts.signing_cert().is_none()
}

#[test]
fn reads_a_signature_that_has_no_value_yet(rt: HostRuntime) -> Result<(), Fail> {
    let alloc = rt.alloc();
    let objects = made(alloc)?;
    let texts = texts_of(alloc, &objects)?;
    let text = with_few(alloc, &texts)?;
    let bytes = text.as_bytes();
    assert!(rt; bytes.len() < 1_000_000);
    let mut steps: Steps<Ledger> = Steps::new();
    let tree = Tree::read(alloc, bytes, &mut steps)?;
    let Ok(parts) = read_signature(alloc, Doc::of(bytes, &tree)) else {
        return Err(Fail::new("no parts"));
    };
    assert!(rt; has_little(&parts));
    assert!(rt; part_of(&parts, 1, 2) == Some(objects.list.as_slice()));
    Ok(())
}

#[test]
fn refuses_what_is_no_token(rt: HostRuntime) -> Result<(), Fail> {
    let alloc = rt.alloc();
    let objects = made(alloc)?;
    let texts = texts_of(alloc, &objects)?;
    let text = with_bad(alloc, &texts)?;
    let bytes = text.as_bytes();
    assert!(rt; bytes.len() < 1_000_000);
    let mut steps: Steps<Ledger> = Steps::new();
    let tree = Tree::read(alloc, bytes, &mut steps)?;
    let Err(fault) = read_signature(alloc, Doc::of(bytes, &tree)) else {
        return Err(Fail::new("no fault"));
    };
    let place = text
        .as_str()
        .find("<xades:EncapsulatedTimeStamp>MAA=")
        .expect(&rt, "a token");
    assert!(rt; place < 1_000_000);
    assert!(rt; matches!(fault, PartFault::PropertyData { at } if at == place as u32));
    Ok(())
}
