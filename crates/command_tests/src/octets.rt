//! Tests of `octets` for a signature that a usual tool would make: enveloped, by RSA (RFC 9231, section 2.3.2), with one external Reference.
//! OpenSSL made its certificate and its value, and libxml2 the text of `SignedInfo` that the value signs.

use crate::runs::{NONE, answer_of, is, words_of};
use signature_shape::What;
use std::alloc::Global;
use std::test::Fail;
use xa_io::{MemShelf, MemSink};
use xades_cli::{Code, Status, run};

const FRONT: &str = "<bill><d Id=\"d\">aGVs\nbG8=</d><e Id=\"e\"/><f id=\"e\"/>\
<ds:Signature xmlns:ds=\"http://www.w3.org/2000/09/xmldsig#\" Id=\"s\">\n\
<ds:SignedInfo>\n\
<ds:CanonicalizationMethod Algorithm=\"http://www.w3.org/2001/10/xml-exc-c14n#\"/>\n\
<ds:SignatureMethod Algorithm=\"http://www.w3.org/2001/04/xmldsig-more#rsa-sha256\"/>\n\
<ds:Reference Id=\"r1\" URI=\"\"><ds:Transforms>\
<ds:Transform Algorithm=\"http://www.w3.org/2000/09/xmldsig#enveloped-signature\"/>\
<ds:Transform Algorithm=\"http://www.w3.org/2001/10/xml-exc-c14n#\"/></ds:Transforms>\
<ds:DigestMethod Algorithm=\"http://www.w3.org/2001/04/xmlenc#sha256\"/><ds:DigestValue>\
binXv+x2dbfRLBgPe9VovFDg015/KjNEvMNZawDD+Aw=</ds:DigestValue></ds:Reference>\n\
<ds:Reference URI=\"#sp\" Type=\"http://uri.etsi.org/01903#SignedProperties\"><ds:Transforms>\
<ds:Transform Algorithm=\"http://www.w3.org/2001/10/xml-exc-c14n#\"/></ds:Transforms>\
<ds:DigestMethod Algorithm=\"http://www.w3.org/2001/04/xmlenc#sha256\"/><ds:DigestValue>\
srq27bejWWIxtdf6OvsW6ffp+GDrqMUK7bymLCT51x0=</ds:DigestValue></ds:Reference>\n\
<ds:Reference Id=\"r3\" URI=\"e\"><ds:DigestMethod Algorithm=\"http://www.w3.org/2001/04/xmlenc#sha256\"/>\
<ds:DigestValue>ungWv48Bz+pBQUDeXa4iI7ADYaOWF3qctBD/YfIAFa0=</ds:DigestValue></ds:Reference>\n\
</ds:SignedInfo>\n\
<ds:SignatureValue>";

const VALUE: &str =
    "fn2z/vBhN+O3ZdLmyJbT8KilqNC5kqCqOEjjOdjhQm4E5zKe5VyZdDFPvpNAbbaXe7vQ1g2ndwaI+rOd2FfXwEsQ3RIE3BJUPFHOKeraoEkOddVD\
MQ3hhviv43RBUA156oMgupNFJ2MI9dDfpsqu1UcCInfPyvAv7EjLixurXa0=";

const BEHIND: &str = "</ds:SignatureValue>\n\
<ds:KeyInfo><ds:X509Data><ds:X509Certificate>\
MIIBvzCCASigAwIBAgIBBzANBgkqhkiG9w0BAQsFADAMMQowCAYDVQQDDAFhMB4XDTI2MTIwMTA5NTY1MloXDTM2MTEyODA5NTY1MlowDDEKMAgG\
A1UEAwwBYTCBnzANBgkqhkiG9w0BAQEFAAOBjQAwgYkCgYEAuKATVB5LPoRgY/f+JLJgVYh+n+pUtt5Vx0fsgLJVfetMKcdF6t1c6cT5fSQsVn7G\
5YoFICbrOMrvM8bXL8ZwOuJsK1vXvPt/q+ivPeoKiIYGW/xmcgOrtowQMfV5yePl0AeajYCun/NpqyaChg1cE3cL2AhO/2ueFtzaS85EQI0CAwEA\
AaMxMC8wDgYDVR0PAQH/BAQDAgeAMB0GA1UdDgQWBBQtOlgVO9/4co8wRd/eDkihFsmgwDANBgkqhkiG9w0BAQsFAAOBgQBG0J5lvTTXHoNydQ5W\
Qgl1CodPb3ryTAoGAB0fw1VOFtp0vAQy096gHjG5WBUnmpJhI9l4ZEmxH47rfkiO+I/N2d49On2oqgFvW70k8rtpj524JGCKzJEBBoj8iDfDSwTK\
TEHtiSJuDjYeJF5wsTz3dPzWhOFSM+Nt9wHka2hF4A==</ds:X509Certificate></ds:X509Data></ds:KeyInfo>\n\
<ds:Object Id=\"o\"><xades:QualifyingProperties xmlns:xades=\"http://uri.etsi.org/01903/v1.3.2#\" Target=\"#s\">\
<xades:SignedProperties Id=\"sp\"><xades:SignedSignatureProperties><xades:SigningTime>2030-01-01T00:00:00Z\
</xades:SigningTime><xades:SigningCertificateV2><xades:Cert><xades:CertDigest>\
<ds:DigestMethod Algorithm=\"http://www.w3.org/2001/04/xmlenc#sha256\"/><ds:DigestValue>\
NV+BQjpaSdkeOcv5GXdy7vfK2dljhmhMsjTsIBMe504=</ds:DigestValue></xades:CertDigest></xades:Cert>\
</xades:SigningCertificateV2></xades:SignedSignatureProperties><xades:SignedDataObjectProperties>\
<xades:DataObjectFormat ObjectReference=\"#r1\"><xades:MimeType>text/xml</xades:MimeType>\
</xades:DataObjectFormat><xades:DataObjectFormat ObjectReference=\"#r3\"><xades:MimeType>text/plain\
</xades:MimeType></xades:DataObjectFormat></xades:SignedDataObjectProperties></xades:SignedProperties>\
</xades:QualifyingProperties></ds:Object></ds:Signature></bill>";

const SIGNED_INFO: &str = "<ds:SignedInfo xmlns:ds=\"http://www.w3.org/2000/09/xmldsig#\">\n\
<ds:CanonicalizationMethod Algorithm=\"http://www.w3.org/2001/10/xml-exc-c14n#\"></ds:CanonicalizationMethod>\n\
<ds:SignatureMethod Algorithm=\"http://www.w3.org/2001/04/xmldsig-more#rsa-sha256\"></ds:SignatureMethod>\n\
<ds:Reference Id=\"r1\" URI=\"\"><ds:Transforms>\
<ds:Transform Algorithm=\"http://www.w3.org/2000/09/xmldsig#enveloped-signature\"></ds:Transform>\
<ds:Transform Algorithm=\"http://www.w3.org/2001/10/xml-exc-c14n#\"></ds:Transform></ds:Transforms>\
<ds:DigestMethod Algorithm=\"http://www.w3.org/2001/04/xmlenc#sha256\"></ds:DigestMethod><ds:DigestValue>\
binXv+x2dbfRLBgPe9VovFDg015/KjNEvMNZawDD+Aw=</ds:DigestValue></ds:Reference>\n\
<ds:Reference Type=\"http://uri.etsi.org/01903#SignedProperties\" URI=\"#sp\"><ds:Transforms>\
<ds:Transform Algorithm=\"http://www.w3.org/2001/10/xml-exc-c14n#\"></ds:Transform></ds:Transforms>\
<ds:DigestMethod Algorithm=\"http://www.w3.org/2001/04/xmlenc#sha256\"></ds:DigestMethod><ds:DigestValue>\
srq27bejWWIxtdf6OvsW6ffp+GDrqMUK7bymLCT51x0=</ds:DigestValue></ds:Reference>\n\
<ds:Reference Id=\"r3\" URI=\"e\"><ds:DigestMethod Algorithm=\"http://www.w3.org/2001/04/xmlenc#sha256\">\
</ds:DigestMethod><ds:DigestValue>ungWv48Bz+pBQUDeXa4iI7ADYaOWF3qctBD/YfIAFa0=</ds:DigestValue></ds:Reference>\n\
</ds:SignedInfo>";

const ALONE: &[&str] = &["octets", "doc=a", "for=signature"];

const HANDED: &[&str] = &["octets", "doc=a", "for=signature", "ext=e"];

// A text, and what is put in its place.
type Change = (&'static str, &'static str);

// What the first Reference names, and the transforms of it.
const WHOLE: &str = "Id=\"r1\" URI=\"\"";

const TRANSFORMS: &str =
    "<ds:Transform Algorithm=\"http://www.w3.org/2000/09/xmldsig#enveloped-signature\"/>\
<ds:Transform Algorithm=\"http://www.w3.org/2001/10/xml-exc-c14n#\"/>";

const BASE64: &str = "<ds:Transform Algorithm=\"http://www.w3.org/2000/09/xmldsig#base64\"/>";

const BASE64_FIRST: &str = "<ds:Transform Algorithm=\"http://www.w3.org/2000/09/xmldsig#base64\"/>\
<ds:Transform Algorithm=\"http://www.w3.org/2000/09/xmldsig#enveloped-signature\"/>";

const UNSIGNED: &str = "</xades:SignedProperties>";

const INCLUDE: &str =
    "</xades:SignedProperties><xades:UnsignedProperties><xades:UnsignedSignatureProperties>\
<xades:SignatureTimeStamp><xades:Include URI=\"#s\"/><xades:EncapsulatedTimeStamp>MAA=</xades:EncapsulatedTimeStamp>\
</xades:SignatureTimeStamp></xades:UnsignedSignatureProperties></xades:UnsignedProperties>";

const NO_TOKEN: &str =
    "</xades:SignedProperties><xades:UnsignedProperties><xades:UnsignedSignatureProperties>\
<xades:SignatureTimeStamp><xades:EncapsulatedTimeStamp>MAA=</xades:EncapsulatedTimeStamp>\
</xades:SignatureTimeStamp></xades:UnsignedSignatureProperties></xades:UnsignedProperties>";

const SECOND: Change = (
    "</bill>",
    "<x:Signature xmlns:x=\"http://www.w3.org/2000/09/xmldsig#\"/></bill>",
);

const MISSING: Change = (WHOLE, "Id=\"r1\" URI=\"#zz\"");

const TWICE: Change = (WHOLE, "Id=\"r1\" URI=\"#e\"");

const OF_PROPERTIES: Change = (WHOLE, "Id=\"r1\" URI=\"#o\"");

// The Reference to the properties keeps all that is below them.
const KEPT: Change = (
    TRANSFORMS,
    "<ds:Transform Algorithm=\"http://www.w3.org/2001/10/xml-exc-c14n#\"/>",
);

const OF_DATA: Change = (WHOLE, "Id=\"r1\" URI=\"#d\"");

const NO_CHAIN: Change = (TRANSFORMS, BASE64_FIRST);

const DECODED: Change = (TRANSFORMS, BASE64);

const UNKNOWN_DIGEST: Change = (
    "xmlenc#sha256\"/><ds:DigestValue>binX",
    "xmlenc#md5\"/><ds:DigestValue>binX",
);

const OTHER_FILE: Change = ("URI=\"e\"", "URI=\"f\"");

const BAD_CERTIFICATE: Change = ("<ds:X509Certificate>MIIB", "<ds:X509Certificate>MIIC");

const STRAY: Change = ("<ds:KeyInfo>", "<ds:KeyInfo>stray");

fn joined(alloc: Global, front: &str, middle: &str, behind: &str) -> Result<String, Fail> {
    let mut text = String::new(alloc);
    text.push_str(front)?;
    text.push_str(middle)?;
    text.push_str(behind)?;
    Ok(text)
}

// A text in which the first place of another one is changed.
fn changed(alloc: Global, text: &str, change: Change) -> Result<String, Fail> {
    let (old, new) = change;
    match text.split_once(old) {
        Some((front, behind)) => joined(alloc, front, new, behind),
        None => Err(Fail::new("nothing to change")),
    }
}

// The document with a value, and with changes.
fn document(alloc: Global, value: &str, changes: &[Change]) -> Result<String, Fail> {
    let mut text = joined(alloc, FRONT, value, BEHIND)?;
    for change in changes {
        text = changed(alloc, text.as_str(), *change)?;
    }
    Ok(text)
}

// Why `octets` refuses a document, where it does.
fn refusal_of(rt: &HostRuntime, document: &str) -> Result<Option<Code>, Fail> {
    let words = words_of(rt, HANDED)?;
    let mut shelf = MemShelf::new(rt.alloc(), 1000);
    shelf.add("a", document.as_bytes())?;
    shelf.add("e", b"abc")?;
    let mut out = MemSink::new(rt.alloc(), 4000)?;
    let mut err = MemSink::new(rt.alloc(), 4000)?;
    match run(rt.alloc(), &words, &mut shelf, &mut out, &mut err) {
        Status::Done => Ok(None),
        Status::Refused { item: 0, code } => Ok(Some(code)),
        _ => Err(Fail::new("no answer on the signature")),
    }
}

#[test]
fn writes_signed_info(rt: HostRuntime) -> Result<(), Fail> {
    for (number, value) in ["", " \n"].iter().enumerate() {
        let document = document(rt.alloc(), value, &[])?;
        let answer = answer_of(&rt, HANDED, document.as_bytes(), 100, &NONE)?;
        assert!(rt;
            is(&answer, 0, SIGNED_INFO.as_bytes(), b""),
            "value {number}"
        );
    }
    Ok(())
}

// A document with a fault, and what is told of it.
#[derive(Clone, Copy)]
struct Told {
    words: &'static [&'static str],
    value: &'static str,
    changes: &'static [Change],
    err: &'static [u8],
}

// What is told of an unsigned document with changes, with one file handed in.
fn row(changes: &'static [Change], err: &'static [u8]) -> Told {
    Told {
        words: HANDED,
        value: "",
        changes,
        err,
    }
}

// Whether it is told.
fn is_told(rt: &HostRuntime, row: &Told) -> Result<bool, Fail> {
    let document = document(rt.alloc(), row.value, row.changes)?;
    let answer = answer_of(rt, row.words, document.as_bytes(), 100, &NONE)?;
    Ok(is(&answer, 10, b"", row.err))
}

// The number of the first row that isn't told, from 1; 0 where there is none.
fn first_untold(rt: &HostRuntime, rows: &[Told]) -> Result<usize, Fail> {
    for (number, row) in rows.iter().enumerate() {
        if !is_told(rt, row)? {
            return Ok(number.saturating_add(1));
        }
    }
    Ok(0)
}

#[test]
fn tells_each_code(rt: HostRuntime) -> Result<(), Fail> {
    let rows = [
        row(&[SECOND], b"xades: item 0 refused: A2\n"),
        row(&[STRAY], b"xades: item 0 refused: A3\n"),
        row(&[(UNSIGNED, INCLUDE)], b"xades: item 0 refused: A4\n"),
        row(&[BAD_CERTIFICATE], b"xades: item 0 refused: A5\n"),
        row(&[(UNSIGNED, NO_TOKEN)], b"xades: item 0 refused: A5\n"),
        row(&[MISSING], b"xades: item 0 refused: A6\n"),
        row(&[TWICE], b"xades: item 0 refused: A7\n"),
        row(&[NO_CHAIN], b"xades: item 0 refused: A8\n"),
        row(&[UNKNOWN_DIGEST], b"xades: item 0 refused: A9\n"),
        row(&[OTHER_FILE], b"xades: item 0 refused: A10\n"),
        Told {
            words: ALONE,
            value: "",
            changes: &[],
            err: b"xades: item 0 refused: A10\n",
        },
        row(
            &[OF_DATA, DECODED, ("aGVs", "aGV*")],
            b"xades: item 0 refused: A11\n",
        ),
        row(&[OF_PROPERTIES, KEPT], b"xades: item 0 refused: A12\n"),
        Told {
            words: HANDED,
            value: VALUE,
            changes: &[],
            err: b"xades: item 0 refused: A13\n",
        },
    ];
    assert!(rt; first_untold(&rt, &rows)? == 0);
    let answer = answer_of(&rt, HANDED, b"<r/>", 100, &NONE)?;
    assert!(rt; is(&answer, 10, b"", b"xades: item 0 refused: A1\n"));
    let answer = answer_of(&rt, HANDED, b"<r>", 100, &NONE)?;
    assert!(rt; is(&answer, 7, b"", b"xades: document fault 5 at 3\n"));
    Ok(())
}

#[test]
fn tells_the_lower_code(rt: HostRuntime) -> Result<(), Fail> {
    let rows = [
        row(&[STRAY, SECOND], b"xades: item 0 refused: A2\n"),
        row(&[BAD_CERTIFICATE, STRAY], b"xades: item 0 refused: A3\n"),
        row(
            &[BAD_CERTIFICATE, (UNSIGNED, INCLUDE)],
            b"xades: item 0 refused: A4\n",
        ),
        row(&[MISSING, BAD_CERTIFICATE], b"xades: item 0 refused: A5\n"),
        row(&[OTHER_FILE, MISSING], b"xades: item 0 refused: A6\n"),
        row(&[UNKNOWN_DIGEST, NO_CHAIN], b"xades: item 0 refused: A8\n"),
        row(
            &[OTHER_FILE, OF_PROPERTIES, KEPT],
            b"xades: item 0 refused: A10\n",
        ),
        Told {
            words: HANDED,
            value: VALUE,
            changes: &[OF_PROPERTIES, KEPT],
            err: b"xades: item 0 refused: A12\n",
        },
    ];
    assert!(rt; first_untold(&rt, &rows)? == 0);
    Ok(())
}

// What a code says of a Reference: the code's number, the Reference's, and the place; 0 where it doesn't.
type Kept = (u8, u32, u32);

fn kept_in(code: &Code) -> Kept {
    let number = code.number();
    match code {
        Code::TargetMissing { k } | Code::TargetTwice { k } | Code::Chain { k } => (number, *k, 0),
        Code::DigestName { k } | Code::External { k } | Code::SelfCover { k } => (number, *k, 0),
        Code::Base64 { k, at } => (number, *k, *at),
        _ => (number, 0, 0),
    }
}

// Which Reference a code names, and which place; all zeros for none.
const NUMBERED: &[(&[Change], Kept)] = &[
    (&[OF_DATA, DECODED], (0, 0, 0)),
    (&[OF_DATA, DECODED, ("aGVs", "aGV*")], (11, 1, 3)),
    (&[OF_DATA, DECODED, ("bG8=", "bG8")], (11, 1, 7)),
    (&[MISSING], (6, 1, 0)),
    (&[TWICE], (7, 1, 0)),
    (&[NO_CHAIN], (8, 1, 0)),
    (&[UNKNOWN_DIGEST], (9, 1, 0)),
    (&[OTHER_FILE], (10, 3, 0)),
    // the enveloped transform takes the properties away with the signature
    (&[OF_PROPERTIES], (0, 0, 0)),
    (&[OF_PROPERTIES, KEPT], (12, 1, 0)),
];

fn kept_of(rt: &HostRuntime, changes: &[Change]) -> Result<Kept, Fail> {
    let document = document(rt.alloc(), "", changes)?;
    match refusal_of(rt, document.as_str())? {
        Some(code) => Ok(kept_in(&code)),
        None => Ok((0, 0, 0)),
    }
}

#[test]
fn names_the_reference_and_the_place(rt: HostRuntime) -> Result<(), Fail> {
    for (changes, kept) in NUMBERED {
        let found = kept_of(&rt, changes)?;
        assert!(rt;
            found.0 == kept.0 && found.1 == kept.1 && found.2 == kept.2,
            "{changes:?}"
        );
    }
    Ok(())
}

#[test]
fn tells_the_line_of_the_shape(rt: HostRuntime) -> Result<(), Fail> {
    let document = document(
        rt.alloc(),
        "",
        &[
            ("<ds:SignatureValue></ds:SignatureValue>\n", ""),
            (
                "<ds:Object ",
                "<ds:SignatureValue></ds:SignatureValue><ds:Object ",
            ),
        ],
    )?;
    match refusal_of(&rt, document.as_str())? {
        Some(
            Code::Shape {
                what: What::Parts,
                ..
            },
        ) => Ok(()),
        _ => Err(Fail::new("another answer")),
    }
}

#[test]
fn wants_each_file_that_is_named(rt: HostRuntime) -> Result<(), Fail> {
    let words = &["octets", "doc=a", "for=signature", "ext=e", "ext=g"];
    let answer = answer_of(&rt, words, b"<r/>", 100, &NONE)?;
    assert!(rt; is(&answer, 3, b"", b"xades: no such file: g\n"));
    Ok(())
}

#[test]
fn a_file_past_its_limit_is_too_long(rt: HostRuntime) -> Result<(), Fail> {
    let words = words_of(&rt, HANDED)?;
    let file = vec![in rt.alloc(); b'x'; 33554433]?;
    let mut shelf = MemShelf::new(rt.alloc(), 1048576);
    shelf.add("a", b"<r/>")?;
    shelf.add("e", file.as_slice())?;
    let mut out = MemSink::new(rt.alloc(), 100)?;
    let mut err = MemSink::new(rt.alloc(), 100)?;
    let status = run(rt.alloc(), &words, &mut shelf, &mut out, &mut err);
    assert!(rt; status.number() == 6 && err.as_slice() == b"xades: too long: e\n".as_slice());
    Ok(())
}
