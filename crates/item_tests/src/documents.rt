//! Documents with one signature, by the text of its value and that of its unsigned properties.

use std::alloc::Global;
use std::test::Fail;

// A certificate, a revocation list and a time-stamp token whose signatures are made up, in base64.
pub(crate) const CERTIFICATE: &str =
    "MIGtMIGWoAMCAQICAQcwDQYLKoZIhvcNAQkQAxEwDTELMAkGA1UEAwwCSzEwIBcNMzAwMTAxMDAwMDAwWhgPMjA3MDAxMDEwMDAwMDBaMA0xCzAJBgNVBAMMAksxMBUwDQYLKoZIhvcNAQkQAxEDBAABAgOjJjAkMBIGA1UdEwEB/wQIMAYBAf8CAQMwDgYDVR0PAQH/BAQDAgIEMA0GCyqGSIb3DQEJEAMRAwMACQk=";

pub(crate) const LIST: &str =
    "MDgwIwIBATANBgsqhkiG9w0BCRADETAAFw0zMDAxMDEwMDAwMDBaMA0GCyqGSIb3DQEJEAMRAwIAAA==";

pub(crate) const TOKEN: &str =
    "MIHgBgkqhkiG9w0BBwKggdIwgc8CAQMxDTALBglghkgBZQMEAgEwQQYLKoZIhvcNAQkQAQSgMgQwMC4CAQEGAisGMBEwCwYJYIZIAWUDBAIBBAIAAAIBARgPMjAzMDAxMDEwMDAwMDBaMXgwdgIBATAFMAACAQEwCwYJYIZIAWUDBAIBoEowGgYJKoZIhvcNAQkDMQ0GCyqGSIb3DQEJEAEEMBEGCSqGSIb3DQEJBDEEBAIAADAZBgsqhkiG9w0BCRACLzEKMAgwBjAEBAIAADANBgsqhkiG9w0BCRADEQQCAAA=";

const FRONT: &str = "<r><ds:Signature xmlns:ds=\"http://www.w3.org/2000/09/xmldsig#\" Id=\"s\">\
<ds:SignedInfo><ds:CanonicalizationMethod Algorithm=\"http://www.w3.org/2001/10/xml-exc-c14n#\"/><ds:SignatureMethod Algorithm=\"urn:m\"/>\
<ds:Reference Type=\"http://uri.etsi.org/01903#SignedProperties\" URI=\"#sp\">\
<ds:DigestMethod Algorithm=\"http://www.w3.org/2001/04/xmlenc#sha256\"/><ds:DigestValue>AAAA</ds:DigestValue></ds:Reference>\
</ds:SignedInfo>";

const PROPERTIES: &str =
    "<ds:Object><xades:QualifyingProperties xmlns:xades=\"http://uri.etsi.org/01903/v1.3.2#\" Target=\"#s\">\
<xades:SignedProperties Id=\"sp\"><xades:SignedSignatureProperties><xades:SigningTime>T</xades:SigningTime>\
<xades:SigningCertificateV2><xades:Cert><xades:CertDigest>\
<ds:DigestMethod Algorithm=\"http://www.w3.org/2001/04/xmlenc#sha256\"/><ds:DigestValue>AAAA</ds:DigestValue>\
</xades:CertDigest></xades:Cert></xades:SigningCertificateV2></xades:SignedSignatureProperties></xades:SignedProperties>";

const BEHIND: &str = "</xades:QualifyingProperties></ds:Object></ds:Signature></r>";

// With these texts of its value and of what stands behind its signed properties.
pub(crate) fn document(alloc: Global, value: &str, unsigned: &str) -> Result<String, Fail> {
    Ok(format!(in alloc;
        "{FRONT}{value}<ds:KeyInfo><ds:X509Data><ds:X509Certificate>{CERTIFICATE}</ds:X509Certificate></ds:X509Data></ds:KeyInfo>\
{PROPERTIES}{unsigned}{BEHIND}"
    )?)
}
