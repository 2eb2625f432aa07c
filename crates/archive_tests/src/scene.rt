//! A signature with four unsigned properties, and what its value and its time-stamps cover.

ghost use Rattle.qualifying_props.specs.PartsOf.{AreParts};
ghost use Rattle.references.specs.RefsOf.{AreRefsOf};

use archive_octets::{StampKind, next_octets, octets_at, signed_octets};
use doc_spans::{Doc, Tree};
use qualifying_props::{SignatureParts, read_signature};
use references::{Externals, Refs, read_refs};
use stamp_checks::{NextStamp, OrderFault, StampFault, judge_next, order_fault};
use std::alloc::Global;
use std::test::Fail;
use tst_tokens::read_token;
use xa_io::{Octs, Steps};

struct Ledger;

// What stands in the document as it stands in canonical text.

const INFO: &str =
    "<ds:CanonicalizationMethod Algorithm=\"http://www.w3.org/2001/10/xml-exc-c14n#WithComments\"></ds:CanonicalizationMethod>\
<ds:SignatureMethod Algorithm=\"urn:m\"></ds:SignatureMethod><ds:Reference Id=\"r1\" URI=\"#d\">\
<ds:DigestMethod Algorithm=\"http://www.w3.org/2001/04/xmlenc#sha256\"></ds:DigestMethod><ds:DigestValue>AAAA</ds:DigestValue>\
</ds:Reference><ds:Reference Type=\"http://uri.etsi.org/01903#SignedProperties\" URI=\"#sp\">\
<ds:DigestMethod Algorithm=\"http://www.w3.org/2001/04/xmlenc#sha256\"></ds:DigestMethod><ds:DigestValue>AAAA</ds:DigestValue>\
</ds:Reference></ds:SignedInfo>";

// A certificate with nothing but what each has.
const KEYS: &str = "<ds:X509Data><ds:X509Certificate>\
MEUwO6ADAgECAgEBMAMGASowADAeFw0zMDAxMDEwMDAwMDBaFw0zMDAxMDEwMDAwMDBaMAAwCDADBgEqAwEAMAMGASoDAQA=\
</ds:X509Certificate></ds:X509Data></ds:KeyInfo>";

const SIGNED: &str =
    " Id=\"sp\"><xades:SignedSignatureProperties><xades:SigningTime>T</xades:SigningTime><xades:SigningCertificateV2><xades:Cert>\
<xades:CertDigest><ds:DigestMethod xmlns:ds=\"http://www.w3.org/2000/09/xmldsig#\" \
Algorithm=\"http://www.w3.org/2001/04/xmlenc#sha256\"></ds:DigestMethod>\
<ds:DigestValue xmlns:ds=\"http://www.w3.org/2000/09/xmldsig#\">AAAA</ds:DigestValue>\
</xades:CertDigest></xades:Cert></xades:SigningCertificateV2></xades:SignedSignatureProperties><xades:SignedDataObjectProperties>\
<xades:DataObjectFormat ObjectReference=\"#r1\"><xades:MimeType>m</xades:MimeType></xades:DataObjectFormat>\
</xades:SignedDataObjectProperties></xades:SignedProperties>";

const METHOD: &str = "<ds:CanonicalizationMethod xmlns:ds=\"http://www.w3.org/2000/09/xmldsig#\" \
Algorithm=\"http://www.w3.org/2001/10/xml-exc-c14n#\"></ds:CanonicalizationMethod>";

// A token with nothing but what each has.
const TOKEN: &str = "<xades:EncapsulatedTimeStamp>\
MIHCBgkqhkiG9w0BBwKggbQwgbECAQMxADA/BgsqhkiG9w0BCRABBKAwBC4wLAIBAQYCKgMwDzALBglghkgBZQMEAgEEAAIBARgPMjAzMDAxMDEwMDAwMDBaMWkwZwIBATAFMAACAQEwCwYJYIZIAWUDBAIBoEYwGgYJKoZIhvcNAQkDMQ0GCyqGSIb3DQEJEAEEMA8GCSqGSIb3DQEJBDECBAAwFwYLKoZIhvcNAQkQAi8xCDAGMAQwAgQAMAQGAioDBAA=\
</xades:EncapsulatedTimeStamp>";

// The rest of the document.

const FRONT: &str = "<r xmlns:k=\"urn:k\"><d Id=\"d\">x<!--c--></d>\
<ds:Signature xmlns:ds=\"http://www.w3.org/2000/09/xmldsig#\" Id=\"s\"><ds:SignedInfo><!--i-->";

const OBJECTS: &str = "<ds:Object Id=\"o\">z</ds:Object><ds:Object>\
<xades:QualifyingProperties xmlns:xades=\"http://uri.etsi.org/01903/v1.3.2#\" Target=\"#s\"><xades:SignedProperties";

const UNSIGNED: &str = "<xades:UnsignedProperties><xades:UnsignedSignatureProperties>";

const BEHIND: &str =
    "</xades:UnsignedSignatureProperties></xades:UnsignedProperties></xades:QualifyingProperties></ds:Object>\
</ds:Signature></r>";

const ARCHIVE: &str = "<a:ArchiveTimeStamp xmlns:a=\"http://uri.etsi.org/01903/v1.4.1#\">";

// A time-stamp on the signature and another property.
fn first_properties(alloc: Global) -> Result<String, Fail> {
    Ok(format!(in alloc;
        "<xades:SignatureTimeStamp>{METHOD}{TOKEN}</xades:SignatureTimeStamp><x></x>"
    )?)
}

// One on the archive, and one on the signature that names no form.
fn last_properties(alloc: Global) -> Result<String, Fail> {
    Ok(format!(in alloc;
        "{ARCHIVE}{METHOD}{TOKEN}</a:ArchiveTimeStamp><xades:SignatureTimeStamp>{TOKEN}</xades:SignatureTimeStamp>"
    )?)
}

fn document(alloc: Global, properties: &str) -> Result<String, Fail> {
    Ok(format!(in alloc;
        "{FRONT}{INFO}<ds:SignatureValue>AA AA</ds:SignatureValue><ds:KeyInfo>{KEYS}{OBJECTS}{SIGNED}{UNSIGNED}{properties}{BEHIND}"
    )?)
}

// The document without properties, with the two first, and with all four.
pub(crate) fn with_none(alloc: Global) -> Result<String, Fail> {
    document(alloc, "")
}

pub(crate) fn with_two(alloc: Global) -> Result<String, Fail> {
    let first = first_properties(alloc)?;
    document(alloc, first.as_str())
}

pub(crate) fn with_four(alloc: Global) -> Result<String, Fail> {
    let first = first_properties(alloc)?;
    let last = last_properties(alloc)?;
    let (first, last) = (first.as_str(), last.as_str());
    let all = format!(in alloc; "{first}{last}")?;
    document(alloc, all.as_str())
}

// What the value covers: the comment too, as the method says.
pub(crate) fn under_value(alloc: Global) -> Result<String, Fail> {
    Ok(format!(in alloc;
        "<ds:SignedInfo xmlns:ds=\"http://www.w3.org/2000/09/xmldsig#\"><!--i-->{INFO}"
    )?)
}

// What an archive time-stamp behind the two first properties covers in the exclusive form.
pub(crate) fn under_archive(alloc: Global) -> Result<String, Fail> {
    let value = VALUE;
    Ok(format!(in alloc;
        "<d Id=\"d\">x</d><xades:SignedProperties xmlns:xades=\"http://uri.etsi.org/01903/v1.3.2#\"{SIGNED}\
<ds:SignedInfo xmlns:ds=\"http://www.w3.org/2000/09/xmldsig#\">{INFO}{value}\
<ds:KeyInfo xmlns:ds=\"http://www.w3.org/2000/09/xmldsig#\">{KEYS}\
<xades:SignatureTimeStamp xmlns:xades=\"http://uri.etsi.org/01903/v1.3.2#\">{METHOD}{TOKEN}</xades:SignatureTimeStamp><x></x>\
<ds:Object xmlns:ds=\"http://www.w3.org/2000/09/xmldsig#\" Id=\"o\">z</ds:Object>"
    )?)
}

// The SignatureValue in the exclusive form, and in the plain one.
pub(crate) const VALUE: &str =
    "<ds:SignatureValue xmlns:ds=\"http://www.w3.org/2000/09/xmldsig#\">AA AA</ds:SignatureValue>";

pub(crate) const PLAIN_VALUE: &str =
    "<ds:SignatureValue xmlns:ds=\"http://www.w3.org/2000/09/xmldsig#\" xmlns:k=\"urn:k\">AA AA</ds:SignatureValue>";

// Whose octets are asked for: those of the value, of a property by its number, or of the next time-stamp.
#[derive(Clone, Copy)]
pub(crate) enum Asked {
    Value,
    Property(usize),
    Next(StampKind),
}

fn answer(
    alloc: Global,
    doc: Doc<'_>,
    parts: &SignatureParts,
    refs: &Refs,
    externals: &Externals,
    asked: Asked,
) -> Result<Octs, Fail>
    requires parts { AreParts doc parts.now }
    requires refs { AreRefsOf doc parts.now refs.now }
{
    match asked {
        Asked::Value => Ok(signed_octets(alloc, doc, parts)?),
        Asked::Property(number) => {
            if number >= parts.properties() {
                return Err(Fail::new("no such property"));
            }
            Ok(octets_at(alloc, doc, parts, refs, externals, number)?)
        }
        Asked::Next(kind) => Ok(next_octets(alloc, doc, parts, refs, externals, kind)?),
    }
}

// Whether the octets are these.
pub(crate) fn covers(
    alloc: Global,
    document: &str,
    asked: Asked,
    wanted: &str,
) -> Result<bool, Fail> {
    let bytes = document.as_bytes();
    if bytes.len() > 9000 {
        return Err(Fail::new("too long"));
    }
    let mut steps: Steps<Ledger> = Steps::new();
    let tree = Tree::read(alloc, bytes, &mut steps)?;
    let doc = Doc::of(bytes, &tree);
    let externals = Externals::new(alloc);
    let Ok(parts) = read_signature(alloc, doc) else {
        return Err(Fail::new("no parts"));
    };
    let Ok(refs) = read_refs(alloc, doc, &parts, &externals) else {
        return Err(Fail::new("no References"));
    };
    let octets = answer(alloc, doc, &parts, &refs, &externals, asked)?;
    Ok(octets.as_slice() == wanted.as_bytes())
}

// What stands against a time-stamp as the next one of a document.
pub(crate) fn judged(
    alloc: Global,
    document: &str,
    stamp: NextStamp<'_>,
) -> Result<Result<(), StampFault>, Fail> {
    let bytes = document.as_bytes();
    if bytes.len() > 9000 {
        return Err(Fail::new("too long"));
    }
    let mut steps: Steps<Ledger> = Steps::new();
    let tree = Tree::read(alloc, bytes, &mut steps)?;
    let doc = Doc::of(bytes, &tree);
    let externals = Externals::new(alloc);
    let Ok(parts) = read_signature(alloc, doc) else {
        return Err(Fail::new("no parts"));
    };
    let Ok(refs) = read_refs(alloc, doc, &parts, &externals) else {
        return Err(Fail::new("no References"));
    };
    Ok(judge_next(alloc, doc, &parts, &refs, &externals, stamp))
}

// And what stands against it besides what its token covers.
pub(crate) fn ordered(
    alloc: Global,
    document: &str,
    stamp: NextStamp<'_>,
) -> Result<Option<OrderFault>, Fail> {
    let bytes = document.as_bytes();
    if bytes.len() > 9000 {
        return Err(Fail::new("too long"));
    }
    let mut steps: Steps<Ledger> = Steps::new();
    let tree = Tree::read(alloc, bytes, &mut steps)?;
    let Ok(parts) = read_signature(alloc, Doc::of(bytes, &tree)) else {
        return Err(Fail::new("no parts"));
    };
    let Ok(token) = read_token(stamp.token) else {
        return Err(Fail::new("no token"));
    };
    Ok(order_fault(&parts, stamp.kind, &token, stamp.moment))
}
