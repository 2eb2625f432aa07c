//! A value, time-stamps and validation data put into each of the elements that may hold them. What the documents then have is written out.

use crate::documents::{CERTIFICATE, LIST, TOKEN, document};
use crate::scene::{decoded, with_file, with_item};
use item_contents::{Item, MaterialFault, split_material};
use std::alloc::Global;
use std::test::Fail;

const NONE: &str = "<ds:SignatureValue></ds:SignatureValue>";

const SIGNED: &str = "<ds:SignatureValue>AQID</ds:SignatureValue>";

// Whether a value of three octets is put into a SignatureValue.
fn takes_value(alloc: Global, empty: &str) -> Result<bool, Fail> {
    let before = document(alloc, empty, "")?;
    let behind = document(alloc, SIGNED, "")?;
    let new = with_item(alloc, before.as_bytes(), Item::Value(&[1, 2, 3]))?;
    Ok(new.as_slice() == behind.as_bytes())
}

#[test]
fn a_value(rt: HostRuntime) -> Result<(), Fail> {
    assert!(rt; takes_value(rt.alloc(), NONE)?);
    assert!(rt; takes_value(rt.alloc(), "<ds:SignatureValue/>")?);
    Ok(())
}

const FRONT: &str = "<xades:SignatureTimeStamp xmlns:xades=\"http://uri.etsi.org/01903/v1.3.2#\">\
<ds:CanonicalizationMethod xmlns:ds=\"http://www.w3.org/2000/09/xmldsig#\" Algorithm=\"http://www.w3.org/2001/10/xml-exc-c14n#\"></ds:CanonicalizationMethod>\
<xades:EncapsulatedTimeStamp>";

const BACK: &str = "</xades:EncapsulatedTimeStamp></xades:SignatureTimeStamp>";

// Whether a time-stamp stands between two texts once it is put in where nothing but a text stands.
fn takes_stamp(alloc: Global, unsigned: &str, front: &str, back: &str) -> Result<bool, Fail> {
    let token = decoded(alloc, TOKEN)?;
    let unsigned_new = format!(in alloc; "{front}{FRONT}{TOKEN}{BACK}{back}")?;
    let before = document(alloc, SIGNED, unsigned)?;
    let behind = document(alloc, SIGNED, unsigned_new.as_str())?;
    let new = with_item(alloc, before.as_bytes(), Item::Stamp(token.as_slice()))?;
    Ok(new.as_slice() == behind.as_bytes())
}

#[test]
fn a_stamp_without_unsigned_properties(rt: HostRuntime) -> Result<(), Fail> {
    let front = "<xades:UnsignedProperties xmlns:xades=\"http://uri.etsi.org/01903/v1.3.2#\">\
<xades:UnsignedSignatureProperties xmlns:xades=\"http://uri.etsi.org/01903/v1.3.2#\">";
    let back = "</xades:UnsignedSignatureProperties></xades:UnsignedProperties>";
    assert!(rt; takes_stamp(rt.alloc(), "", front, back)?);
    Ok(())
}

// White space in the empty tag stays.
#[test]
fn a_stamp_in_an_empty_tag(rt: HostRuntime) -> Result<(), Fail> {
    let front =
        "<xades:UnsignedProperties ><xades:UnsignedSignatureProperties xmlns:xades=\"http://uri.etsi.org/01903/v1.3.2#\">";
    let back = "</xades:UnsignedSignatureProperties></xades:UnsignedProperties>";
    assert!(rt; takes_stamp(rt.alloc(), "<xades:UnsignedProperties />", front, back)?);
    Ok(())
}

#[test]
fn a_stamp_among_properties(rt: HostRuntime) -> Result<(), Fail> {
    let front = "<xades:UnsignedProperties><xades:UnsignedSignatureProperties><p/>";
    let back = "</xades:UnsignedSignatureProperties></xades:UnsignedProperties>";
    let unsigned = format!(in rt.alloc(); "{front}{back}")?;
    assert!(rt; takes_stamp(rt.alloc(), unsigned.as_str(), front, back)?);
    Ok(())
}

const ARCHIVE_FRONT: &str =
    "<xadesv141:ArchiveTimeStamp xmlns:xadesv141=\"http://uri.etsi.org/01903/v1.4.1#\">\
<ds:CanonicalizationMethod xmlns:ds=\"http://www.w3.org/2000/09/xmldsig#\" Algorithm=\"http://www.w3.org/2001/10/xml-exc-c14n#\"></ds:CanonicalizationMethod>\
<xades:EncapsulatedTimeStamp xmlns:xades=\"http://uri.etsi.org/01903/v1.3.2#\">";

const ARCHIVE_BACK: &str = "</xades:EncapsulatedTimeStamp></xadesv141:ArchiveTimeStamp>";

const CERTIFICATES_FRONT: &str =
    "<xades:CertificateValues xmlns:xades=\"http://uri.etsi.org/01903/v1.3.2#\"><xades:EncapsulatedX509Certificate>";

const CERTIFICATES_BACK: &str = "</xades:EncapsulatedX509Certificate></xades:CertificateValues>";

const LISTS_FRONT: &str =
    "<xades:RevocationValues xmlns:xades=\"http://uri.etsi.org/01903/v1.3.2#\"><xades:CRLValues><xades:EncapsulatedCRLValue>";

const LISTS_BACK: &str = "</xades:EncapsulatedCRLValue></xades:CRLValues></xades:RevocationValues>";

const OPENED: &str = "<xades:UnsignedProperties><xades:UnsignedSignatureProperties>";

const CLOSED: &str = "</xades:UnsignedSignatureProperties></xades:UnsignedProperties>";

// A document with these unsigned signature properties.
fn with_properties(alloc: Global, properties: &str) -> Result<String, Fail> {
    let unsigned = format!(in alloc; "{OPENED}{properties}{CLOSED}")?;
    document(alloc, SIGNED, unsigned.as_str())
}

#[test]
fn an_archive_stamp(rt: HostRuntime) -> Result<(), Fail> {
    let alloc = rt.alloc();
    let token = decoded(alloc, TOKEN)?;
    let before = with_properties(alloc, "")?;
    let archive = format!(in alloc; "{ARCHIVE_FRONT}{TOKEN}{ARCHIVE_BACK}")?;
    let behind = with_properties(alloc, archive.as_str())?;
    let new = with_item(alloc, before.as_bytes(), Item::Archive(token.as_slice()))?;
    assert!(rt; new.as_slice() == behind.as_bytes());
    Ok(())
}

// A revocation list and a certificate, one after the other.
fn file(alloc: Global) -> Result<Vec<u8>, Fail> {
    let mut file = decoded(alloc, LIST)?;
    file.extend_from_slice(decoded(alloc, CERTIFICATE)?.as_slice())?;
    Ok(file)
}

// Whether some properties have two texts and the validation data of the file between them behind them, once these are put in.
fn takes_data(alloc: Global, properties: &str, front: &str, back: &str) -> Result<bool, Fail> {
    let values = format!(in alloc;
        "{CERTIFICATES_FRONT}{CERTIFICATE}{CERTIFICATES_BACK}{LISTS_FRONT}{LIST}{LISTS_BACK}"
    )?;
    let values = values.as_str();
    let properties_new = format!(in alloc; "{properties}{front}{values}{back}")?;
    let before = with_properties(alloc, properties)?;
    let behind = with_properties(alloc, properties_new.as_str())?;
    let new = with_file(alloc, before.as_bytes(), file(alloc)?.as_slice())?;
    Ok(new.as_slice() == behind.as_bytes())
}

#[test]
fn validation_data(rt: HostRuntime) -> Result<(), Fail> {
    assert!(rt; takes_data(rt.alloc(), "<p/>", "", "")?);
    Ok(())
}

// They stand for themselves once: behind values, and behind an archive time-stamp, they are those of time-stamps.
#[test]
fn validation_data_of_time_stamps(rt: HostRuntime) -> Result<(), Fail> {
    let alloc = rt.alloc();
    let front =
        "<xadesv141:TimeStampValidationData xmlns:xadesv141=\"http://uri.etsi.org/01903/v1.4.1#\">";
    let back = "</xadesv141:TimeStampValidationData>";
    let values = format!(in alloc; "{LISTS_FRONT}{LIST}{LISTS_BACK}")?;
    let archive = format!(in alloc; "{ARCHIVE_FRONT}{TOKEN}{ARCHIVE_BACK}")?;
    assert!(rt; takes_data(alloc, values.as_str(), front, back)?);
    assert!(rt; takes_data(alloc, archive.as_str(), front, back)?);
    Ok(())
}

#[test]
fn files_that_are_no_validation_data(rt: HostRuntime) -> Result<(), Fail> {
    let alloc = rt.alloc();
    let mut file = file(alloc)?;
    let end = file.len();
    file.push(0x30)?;
    let result = split_material(alloc, file.as_slice());
    assert!(rt; matches!(result, Err(MaterialFault::NotWhole { at }) if at == end));
    Ok(())
}
