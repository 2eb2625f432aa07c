//! Documents with a signature that holds the made-up objects.

use crate::objects::{Objects, digest_of};
use base64::engine::general_purpose::STANDARD;
use std::alloc::Global;
use std::test::Fail;

const FRONT: &str = "<r><ds:Signature xmlns:ds=\"http://www.w3.org/2000/09/xmldsig#\" Id=\"s\">\
<ds:SignedInfo><ds:CanonicalizationMethod Algorithm=\"http://www.w3.org/2001/10/xml-exc-c14n#\"/>\
<ds:SignatureMethod Algorithm=\"urn:m&#x26;\u{e9}\"/>\
<ds:Reference Id=\"a\" URI=\"a.txt\">\
<ds:DigestMethod Algorithm=\"http://www.w3.org/2001/04/xmlenc#sha256\"/><ds:DigestValue>AAAA</ds:DigestValue></ds:Reference>\
<ds:Reference Type=\"http://uri.etsi.org/01903#SignedProperties\" URI=\"#sp\">\
<ds:DigestMethod Algorithm=\"http://www.w3.org/2001/04/xmlenc#sha256\"/><ds:DigestValue>AAAA</ds:DigestValue></ds:Reference>\
</ds:SignedInfo>";

const OBJECTS: &str = "<ds:Object Id=\"x\"/><ds:Object>\
<xades:QualifyingProperties xmlns:xades=\"http://uri.etsi.org/01903/v1.3.2#\" Target=\"#s\">\
<xades:SignedProperties Id=\"sp\"><xades:SignedSignatureProperties><xades:SigningTime>T</xades:SigningTime>\
<xades:SigningCertificateV2><xades:Cert><xades:CertDigest>\
<ds:DigestMethod Algorithm=\"http://www.w3.org/2001/04/xmlenc#sha256\"/><ds:DigestValue>";

const SIGNED: &str =
    "</ds:DigestValue></xades:CertDigest></xades:Cert></xades:SigningCertificateV2>\
</xades:SignedSignatureProperties><xades:SignedDataObjectProperties><xades:DataObjectFormat ObjectReference=\"#a\">\
<xades:MimeType>m</xades:MimeType></xades:DataObjectFormat></xades:SignedDataObjectProperties></xades:SignedProperties>";

const BEHIND: &str =
    "</xades:QualifyingProperties></ds:Object><ds:Object Id=\"y\"/></ds:Signature></r>";

// The objects as texts, and the digest of the signer.
#[derive(Drop)]
pub(crate) struct Texts {
    authority: String,
    signer: String,
    list: String,
    stamper: String,
    token: String,
    digest: String,
}

fn spelled(alloc: Global, octets: &[u8]) -> Result<String, Fail> {
    Ok(STANDARD.encode(alloc, octets)?)
}

pub(crate) fn texts_of(alloc: Global, objects: &Objects) -> Result<Texts, Fail> {
    let signer = objects.signer.as_slice();
    Ok(Texts {
        authority: spelled(alloc, objects.authority.as_slice())?,
        signer: spelled(alloc, signer)?,
        list: spelled(alloc, objects.list.as_slice())?,
        stamper: spelled(alloc, objects.stamper.as_slice())?,
        token: spelled(alloc, objects.token.as_slice())?,
        digest: spelled(alloc, digest_of(signer).as_slice())?,
    })
}

fn key_info(alloc: Global, texts: &Texts) -> Result<String, Fail> {
    let (authority, signer) = (texts.authority.as_str(), texts.signer.as_str());
    Ok(format!(in alloc;
        "<ds:KeyInfo><ds:X509Data><ds:X509Certificate>{authority}</ds:X509Certificate><ds:X509Certificate> \n{signer}\
</ds:X509Certificate></ds:X509Data><ds:X509Data><ds:X509Certificate>{signer}</ds:X509Certificate></ds:X509Data></ds:KeyInfo>"
    )?)
}

fn certificates(alloc: Global, texts: &Texts) -> Result<String, Fail> {
    let (authority, signer) = (texts.authority.as_str(), texts.signer.as_str());
    Ok(format!(in alloc;
        "<xades:CertificateValues><xades:EncapsulatedX509Certificate>{authority}</xades:EncapsulatedX509Certificate>\
<xades:EncapsulatedX509Certificate>{signer}</xades:EncapsulatedX509Certificate></xades:CertificateValues>"
    )?)
}

fn lists(alloc: Global, texts: &Texts) -> Result<String, Fail> {
    let list = texts.list.as_str();
    Ok(format!(in alloc;
        "<xades:RevocationValues><xades:CRLValues><xades:EncapsulatedCRLValue>{list}</xades:EncapsulatedCRLValue></xades:CRLValues>\
</xades:RevocationValues>"
    )?)
}

fn stamp(alloc: Global, texts: &Texts, name: &str, space: &str) -> Result<String, Fail> {
    let token = texts.token.as_str();
    Ok(format!(in alloc;
        "<p:{name} xmlns:p=\"{space}\"><xades:EncapsulatedTimeStamp>{token}</xades:EncapsulatedTimeStamp></p:{name}>"
    )?)
}

const V132: &str = "http://uri.etsi.org/01903/v1.3.2#";

const V141: &str = "http://uri.etsi.org/01903/v1.4.1#";

// The certificates and lists that a time-stamp is validated with.
fn inner(alloc: Global, texts: &Texts) -> Result<String, Fail> {
    let certificates = certificates(alloc, texts)?;
    let lists = lists(alloc, texts)?;
    let (certificates, lists) = (certificates.as_str(), lists.as_str());
    Ok(format!(in alloc;
        "<p:TimeStampValidationData xmlns:p=\"{V141}\">{certificates}{lists}</p:TimeStampValidationData>"
    )?)
}

// All kinds of properties.
pub(crate) fn many(alloc: Global, texts: &Texts) -> Result<String, Fail> {
    let first = stamp(alloc, texts, "SignatureTimeStamp", V132)?;
    let last = stamp(alloc, texts, "ArchiveTimeStamp", V141)?;
    let certificates = certificates(alloc, texts)?;
    let lists = lists(alloc, texts)?;
    let inner = inner(alloc, texts)?;
    let (first, last, certificates) = (first.as_str(), last.as_str(), certificates.as_str());
    let (lists, inner) = (lists.as_str(), inner.as_str());
    Ok(format!(in alloc; "{first}<x/>{certificates}{lists}{inner}{last}")?)
}

// Properties without values but those in TimeStampValidationData.
pub(crate) fn few(alloc: Global, texts: &Texts) -> Result<String, Fail> {
    let first = stamp(alloc, texts, "SignatureTimeStamp", V132)?;
    let inner = inner(alloc, texts)?;
    let (first, inner) = (first.as_str(), inner.as_str());
    Ok(format!(in alloc; "{first}{inner}")?)
}

// A time-stamp, and the certificate of its signer, which stands in its token too.
fn stamper_twice(alloc: Global, texts: &Texts) -> Result<String, Fail> {
    let stamp = stamp(alloc, texts, "SignatureTimeStamp", V132)?;
    let (stamp, stamper) = (stamp.as_str(), texts.stamper.as_str());
    Ok(format!(in alloc;
        "{stamp}<xades:CertificateValues><xades:EncapsulatedX509Certificate>{stamper}</xades:EncapsulatedX509Certificate>\
</xades:CertificateValues>"
    )?)
}

// A document by the text of its value, the text of the digest of the first Cert, and its unsigned signature properties.
fn document(
    alloc: Global,
    texts: &Texts,
    value: &str,
    digest: &str,
    properties: &str,
) -> Result<String, Fail> {
    let key_info = key_info(alloc, texts)?;
    let key_info = key_info.as_str();
    Ok(format!(in alloc;
        "{FRONT}<ds:SignatureValue>{value}</ds:SignatureValue>{key_info}{OBJECTS}{digest}{SIGNED}<xades:UnsignedProperties>\
<xades:UnsignedSignatureProperties>{properties}</xades:UnsignedSignatureProperties></xades:UnsignedProperties>{BEHIND}"
    )?)
}

pub(crate) fn with_many(alloc: Global, texts: &Texts) -> Result<String, Fail> {
    let properties = many(alloc, texts)?;
    document(
        alloc,
        texts,
        " AQ ID\n",
        texts.digest.as_str(),
        properties.as_str(),
    )
}

pub(crate) fn with_few(alloc: Global, texts: &Texts) -> Result<String, Fail> {
    let properties = few(alloc, texts)?;
    document(alloc, texts, "\n", "AAAA", properties.as_str())
}

// One whose second token is no token.
pub(crate) fn with_bad(alloc: Global, texts: &Texts) -> Result<String, Fail> {
    let first = stamp(alloc, texts, "SignatureTimeStamp", V132)?;
    let first = first.as_str();
    let properties = format!(in alloc;
        "{first}<xades:SignatureTimeStamp><xades:EncapsulatedTimeStamp>MAA=</xades:EncapsulatedTimeStamp></xades:SignatureTimeStamp>"
    )?;
    document(alloc, texts, "", "AAAA", properties.as_str())
}

pub(crate) fn with_stamper_twice(alloc: Global, texts: &Texts) -> Result<String, Fail> {
    let properties = stamper_twice(alloc, texts)?;
    document(
        alloc,
        texts,
        "AQID",
        texts.digest.as_str(),
        properties.as_str(),
    )
}
