//! A signature without a fault, with one text in it changed.

use std::alloc::{AllocError, Global};

// A signature without a fault.
pub(crate) const WHOLE: &str =
    "<r><d Id=\"d\">aGVsbG8=</d><ds:Signature xmlns:ds=\"http://www.w3.org/2000/09/xmldsig#\" Id=\"s\">\
<ds:SignedInfo><ds:CanonicalizationMethod Algorithm=\"http://www.w3.org/2001/10/xml-exc-c14n#\"/>\
<ds:SignatureMethod Algorithm=\"urn:m\"/><ds:Reference Id=\"s-r1\" URI=\"#d\"><ds:Transforms>\
<ds:Transform Algorithm=\"http://www.w3.org/2000/09/xmldsig#base64\"></ds:Transform></ds:Transforms>\
<ds:DigestMethod Algorithm=\"http://www.w3.org/2001/04/xmlenc#sha256\"/><ds:DigestValue>AAAA</ds:DigestValue></ds:Reference>\
<ds:Reference Type=\"http://uri.etsi.org/01903#SignedProperties\" URI=\"#s-sp\">\
<ds:DigestMethod Algorithm=\"http://www.w3.org/2001/04/xmlenc#sha256\"/><ds:DigestValue>AAAA</ds:DigestValue></ds:Reference>\
</ds:SignedInfo><ds:SignatureValue>AAAA</ds:SignatureValue><ds:KeyInfo><ds:X509Data>\
<ds:X509Certificate>MAE=</ds:X509Certificate></ds:X509Data></ds:KeyInfo><ds:Object>\
<xades:QualifyingProperties xmlns:xades=\"http://uri.etsi.org/01903/v1.3.2#\" Target=\"#s\"><xades:SignedProperties Id=\"s-sp\">\
<xades:SignedSignatureProperties><xades:SigningTime>T</xades:SigningTime><xades:SigningCertificateV2><xades:Cert>\
<xades:CertDigest><ds:DigestMethod Algorithm=\"http://www.w3.org/2001/04/xmlenc#sha512\"/>\
<ds:DigestValue>9U+W</ds:DigestValue></xades:CertDigest></xades:Cert></xades:SigningCertificateV2>\
</xades:SignedSignatureProperties><xades:SignedDataObjectProperties><xades:DataObjectFormat ObjectReference=\"#s-r1\">\
<xades:MimeType>m</xades:MimeType></xades:DataObjectFormat></xades:SignedDataObjectProperties></xades:SignedProperties>\
<xades:UnsignedProperties><xades:UnsignedSignatureProperties><xades:SignatureTimeStamp>\
<xades:EncapsulatedTimeStamp>MAM=</xades:EncapsulatedTimeStamp></xades:SignatureTimeStamp><xades:CertificateValues>\
<xades:EncapsulatedX509Certificate>MAE=</xades:EncapsulatedX509Certificate></xades:CertificateValues><xades:RevocationValues>\
<xades:CRLValues><xades:EncapsulatedCRLValue>MAI=</xades:EncapsulatedCRLValue></xades:CRLValues></xades:RevocationValues>\
</xades:UnsignedSignatureProperties></xades:UnsignedProperties></xades:QualifyingProperties></ds:Object></ds:Signature></r>";

// The signature with the first place of a text changed.
pub(crate) fn changed(alloc: Global, old: &str, new: &str) -> Result<String, AllocError> {
    let mut text = String::new(alloc);
    match WHOLE.split_once(old) {
        Some((front, behind)) => {
            text.push_str(front)?;
            text.push_str(new)?;
            text.push_str(behind)?;
        }
        None => text.push_str(WHOLE)?,
    }
    Ok(text)
}
