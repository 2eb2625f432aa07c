//! Documents of which each has one fault, or two. What is expected follows from XML Signature 1.1, section 4, and EN 319 132-1, clauses 4.3,
//! 4.4 and 5.

use doc_spans::{Doc, Tree};
use qualifying_props::{PartFault, SignatureParts, What, read_signature};
use std::alloc::{AllocError, Global};
use std::test::Fail;
use xa_io::Steps;

struct Ledger;

// A signature without a fault in its shape. No octets in it are a whole certificate, list or token.
const SHAPED: &str = "<r><ds:Signature xmlns:ds=\"http://www.w3.org/2000/09/xmldsig#\" Id=\"s\">\
<ds:SignedInfo><ds:CanonicalizationMethod Algorithm=\"http://www.w3.org/2001/10/xml-exc-c14n#\"/>\
<ds:SignatureMethod Algorithm=\"urn:m\"/>\
<ds:Reference Type=\"http://uri.etsi.org/01903#SignedProperties\" URI=\"#s-sp\">\
<ds:DigestMethod Algorithm=\"http://www.w3.org/2001/04/xmlenc#sha256\"/><ds:DigestValue>AAAA</ds:DigestValue></ds:Reference>\
</ds:SignedInfo><ds:SignatureValue>AAAA</ds:SignatureValue><ds:KeyInfo><ds:X509Data>\
<ds:X509Certificate>MAE=</ds:X509Certificate></ds:X509Data></ds:KeyInfo><ds:Object>\
<xades:QualifyingProperties xmlns:xades=\"http://uri.etsi.org/01903/v1.3.2#\" Target=\"#s\"><xades:SignedProperties Id=\"s-sp\">\
<xades:SignedSignatureProperties><xades:SigningTime>T</xades:SigningTime><xades:SigningCertificateV2><xades:Cert>\
<xades:CertDigest><ds:DigestMethod Algorithm=\"http://www.w3.org/2001/04/xmlenc#sha512\"/>\
<ds:DigestValue>9U+W</ds:DigestValue></xades:CertDigest></xades:Cert></xades:SigningCertificateV2>\
</xades:SignedSignatureProperties></xades:SignedProperties>\
<xades:UnsignedProperties><xades:UnsignedSignatureProperties><xades:SignatureTimeStamp>\
<xades:EncapsulatedTimeStamp>MAM=</xades:EncapsulatedTimeStamp></xades:SignatureTimeStamp>\
</xades:UnsignedSignatureProperties></xades:UnsignedProperties></xades:QualifyingProperties></ds:Object></ds:Signature></r>";

// The signature with the first place of a text changed.
fn changed(alloc: Global, old: &str, new: &str) -> Result<String, AllocError> {
    let mut text = String::new(alloc);
    match SHAPED.split_once(old) {
        Some((front, behind)) => {
            text.push_str(front)?;
            text.push_str(new)?;
            text.push_str(behind)?;
        }
        None => text.push_str(SHAPED)?,
    }
    Ok(text)
}

// What is read of a document.
fn read(alloc: Global, text: &str) -> Result<Result<SignatureParts, PartFault>, Fail> {
    let bytes = text.as_bytes();
    if bytes.len() > 4000 {
        return Err(Fail::new("too long"));
    }
    let mut steps: Steps<Ledger> = Steps::new();
    let tree = Tree::read(alloc, bytes, &mut steps)?;
    Ok(read_signature(alloc, Doc::of(bytes, &tree)))
}

// The fault of a document, which has one.
fn fault_of(alloc: Global, text: &str) -> Result<PartFault, Fail> {
    match read(alloc, text)? {
        Ok(_) => Err(Fail::new("no fault")),
        Err(fault) => Ok(fault),
    }
}

// The fault of the changed signature.
fn fault_with(alloc: Global, old: &str, new: &str) -> Result<PartFault, Fail> {
    let text = changed(alloc, old, new)?;
    fault_of(alloc, text.as_str())
}

// Where a text first stands in the changed signature.
fn place_with(alloc: Global, old: &str, new: &str, part: &str) -> Result<u32, Fail> {
    let text = changed(alloc, old, new)?;
    match text.as_str().find(part) {
        Some(place) if place < 4000 => Ok(place as u32),
        _ => Err(Fail::new("no place")),
    }
}

fn is_no_signature(alloc: Global, text: &str) -> Result<bool, Fail> {
    Ok(matches!(fault_of(alloc, text)?, PartFault::NoSignature))
}

fn is_several(alloc: Global, text: &str) -> Result<bool, Fail> {
    Ok(matches!(fault_of(alloc, text)?, PartFault::Several))
}

// Whether a document has a fault in its parts at the first byte.
fn breaks_parts(alloc: Global, text: &str) -> Result<bool, Fail> {
    Ok(matches!(
        fault_of(alloc, text)?,
        PartFault::Shape {
            at: 0,
            what: What::Parts
        }
    ))
}

#[test]
fn wants_one_signature(rt: HostRuntime) -> Result<(), Fail> {
    let alloc = rt.alloc();
    let two = "<a xmlns=\"http://www.w3.org/2000/09/xmldsig#\"><Signature/><b><Signature/></b></a>";
    let nested = "<Signature xmlns=\"http://www.w3.org/2000/09/xmldsig#\"><Signature/></Signature>";
    assert!(rt; is_no_signature(alloc, "<Signature/>")? && is_several(alloc, two)?);
    assert!(rt; breaks_parts(alloc, nested)?);
    Ok(())
}

// Whether the changed signature has a fault in a time-stamp where a text begins.
fn breaks_stamp(alloc: Global, old: &str, new: &str, part: &str) -> Result<bool, Fail> {
    let place = place_with(alloc, old, new, part)?;
    match fault_with(alloc, old, new)? {
        PartFault::Shape { at, what } => Ok(at == place && matches!(what, What::Stamp)),
        _ => Ok(false),
    }
}

#[test]
fn judges_the_shape_first(rt: HostRuntime) -> Result<(), Fail> {
    let (old, new) = (
        "</xades:EncapsulatedTimeStamp>",
        "</xades:EncapsulatedTimeStamp><xades:Include/><x/>",
    );
    assert!(rt; breaks_stamp(rt.alloc(), old, new, "<x/>")?);
    Ok(())
}

// Whether the changed signature has an Include where a text begins.
fn includes(alloc: Global, old: &str, new: &str, part: &str) -> Result<bool, Fail> {
    let place = place_with(alloc, old, new, part)?;
    match fault_with(alloc, old, new)? {
        PartFault::Include { at } => Ok(at == place),
        _ => Ok(false),
    }
}

#[test]
fn refuses_the_first_include(rt: HostRuntime) -> Result<(), Fail> {
    let (old, new) = (
        "</xades:EncapsulatedTimeStamp>",
        "</xades:EncapsulatedTimeStamp><xades:Include/><xades:Include URI=\"\"/>",
    );
    assert!(rt; includes(rt.alloc(), old, new, "<xades:Include/>")?);
    Ok(())
}

// Whether the changed signature has its first bad value where a text begins.
fn has_bad_value(alloc: Global, old: &str, new: &str, part: &str) -> Result<bool, Fail> {
    let place = place_with(alloc, old, new, part)?;
    match fault_with(alloc, old, new)? {
        PartFault::PropertyData { at } => Ok(at == place),
        _ => Ok(false),
    }
}

#[test]
fn refuses_the_first_bad_value(rt: HostRuntime) -> Result<(), Fail> {
    let alloc = rt.alloc();
    let certificate = "<ds:X509Certificate>";
    assert!(rt; has_bad_value(alloc, "", "", certificate)?);
    assert!(rt;
        has_bad_value(alloc, "MAE=", "MAE", certificate)?
            && has_bad_value(alloc, "MAE=", "", certificate)?
    );
    Ok(())
}
