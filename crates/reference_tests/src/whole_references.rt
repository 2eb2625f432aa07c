//! Signatures with three References. What is expected follows from XML Signature 1.1, sections 4.4.3 and 6, and RFC 4648.

use canon_forms::Form;
use doc_spans::{Doc, Tree};
use qualifying_props::read_signature;
use references::{Externals, RefFault, digest_ok, octets, read_refs, self_cover};
use std::alloc::Global;
use std::test::Fail;
use xa_io::{Octs, Steps};

struct Ledger;

// A Reference by its URI, its transforms, the name of its digest and its digest.
#[derive(Clone, Copy)]
struct Part {
    uri: &'static str,
    transforms: &'static str,
    digest: &'static str,
    value: &'static str,
}

const SHA256: &str = "http://www.w3.org/2001/04/xmlenc#sha256";

const DECODED: &str =
    "<ds:Transforms><ds:Transform Algorithm=\"http://www.w3.org/2000/09/xmldsig#base64\"/></ds:Transforms>";

const ENVELOPED: &str = "<ds:Transforms>\
<ds:Transform Algorithm=\"http://www.w3.org/2000/09/xmldsig#enveloped-signature\"/></ds:Transforms>";

const TURNED: &str =
    "<ds:Transforms><ds:Transform Algorithm=\"http://www.w3.org/2000/09/xmldsig#base64\"/>\
<ds:Transform Algorithm=\"http://www.w3.org/2000/09/xmldsig#enveloped-signature\"/></ds:Transforms>";

const FRONT: &str =
    "<r><!--c--><d Id=\"d\">aGVs\nbG8=</d><t Id=\"t\"/><t id=\"t\"/><b Id=\"star\">aGV*bG8=</b><b Id=\"short\">aGVsbG8</b>\
<ds:Signature xmlns:ds=\"http://www.w3.org/2000/09/xmldsig#\" Id=\"s\"><ds:SignedInfo>\
<ds:CanonicalizationMethod Algorithm=\"http://www.w3.org/2001/10/xml-exc-c14n#\"/><ds:SignatureMethod Algorithm=\"urn:m\"/>";

const TYPED: &str = "<ds:Reference Type=\"http://uri.etsi.org/01903#SignedProperties\" URI=\"#sp\">\
<ds:DigestMethod Algorithm=\"http://www.w3.org/2001/04/xmlenc#sha256\"/><ds:DigestValue>AAAA</ds:DigestValue></ds:Reference>\
</ds:SignedInfo><ds:SignatureValue Id=\"v\">";

// A certificate with nothing but what each has; its digest isn't asked for here.
const BEHIND: &str = "</ds:SignatureValue><ds:KeyInfo><ds:X509Data><ds:X509Certificate>\
MEUwO6ADAgECAgEBMAMGASowADAeFw0zMDAxMDEwMDAwMDBaFw0zMDAxMDEwMDAwMDBaMAAwCDADBgEqAwEAMAMGASoDAQA=\
</ds:X509Certificate></ds:X509Data></ds:KeyInfo><ds:Object Id=\"o\">\
<xades:QualifyingProperties xmlns:xades=\"http://uri.etsi.org/01903/v1.3.2#\" Target=\"#s\"><xades:SignedProperties Id=\"sp\">\
<xades:SignedSignatureProperties><xades:SigningTime>T</xades:SigningTime><xades:SigningCertificateV2><xades:Cert>\
<xades:CertDigest><ds:DigestMethod Algorithm=\"http://www.w3.org/2001/04/xmlenc#sha256\"/><ds:DigestValue>AAAA</ds:DigestValue>\
</xades:CertDigest></xades:Cert></xades:SigningCertificateV2></xades:SignedSignatureProperties><xades:SignedDataObjectProperties>\
<xades:DataObjectFormat ObjectReference=\"#r1\"><xades:MimeType>m</xades:MimeType></xades:DataObjectFormat>\
<xades:DataObjectFormat ObjectReference=\"#r2\"><xades:MimeType>m</xades:MimeType></xades:DataObjectFormat>\
</xades:SignedDataObjectProperties></xades:SignedProperties></xades:QualifyingProperties></ds:Object></ds:Signature></r>";

const PLAIN: Form<'static> = Form::Inclusive { comments: false };

// A Reference by its URI, its transforms and the name of its digest.
type Named = (&'static str, &'static str, &'static str);

fn part_of(named: Named) -> Part {
    Part {
        uri: named.0,
        transforms: named.1,
        digest: named.2,
        value: "AAAA",
    }
}

fn spelled(alloc: Global, id: &str, part: Part) -> Result<String, Fail> {
    let (uri, transforms) = (part.uri, part.transforms);
    let (digest, value) = (part.digest, part.value);
    Ok(format!(in alloc;
        "<ds:Reference Id=\"{id}\" URI=\"{uri}\">{transforms}<ds:DigestMethod Algorithm=\"{digest}\"/>\
<ds:DigestValue>{value}</ds:DigestValue></ds:Reference>"
    )?)
}

// A document whose signature has two References, and a third to its signed properties.
fn document(alloc: Global, first: Part, second: Part, value: &str) -> Result<String, Fail> {
    let first = spelled(alloc, "r1", first)?;
    let second = spelled(alloc, "r2", second)?;
    let (first, second) = (first.as_str(), second.as_str());
    Ok(format!(in alloc; "{FRONT}{first}{second}{TYPED}{value}{BEHIND}")?)
}

// Octets that are handed in: of equal names the first counts.
fn handed(alloc: Global) -> Result<Externals, Fail> {
    let mut externals = Externals::new(alloc);
    let mut octets = Octs::new(alloc);
    octets.push_all(b"YWJj IA==")?;
    externals.add("e", octets)?;
    externals.add("e", Octs::new(alloc))?;
    Ok(externals)
}

// The fault of the References.
fn fault_of(alloc: Global, first: Part, second: Part) -> Result<RefFault, Fail> {
    let text = document(alloc, first, second, "")?;
    let bytes = text.as_bytes();
    if bytes.len() > 9000 {
        return Err(Fail::new("too long"));
    }
    let mut steps: Steps<Ledger> = Steps::new();
    let tree = Tree::read(alloc, bytes, &mut steps)?;
    let doc = Doc::of(bytes, &tree);
    let externals = handed(alloc)?;
    let Ok(parts) = read_signature(alloc, doc) else {
        return Err(Fail::new("no parts"));
    };
    match read_refs(alloc, doc, &parts, &externals) {
        Ok(_) => Err(Fail::new("no fault")),
        Err(fault) => Ok(fault),
    }
}

// Whether a Reference has these octets, and whether it has its digest.
fn tells(
    alloc: Global,
    first: Part,
    second: Part,
    k: u32,
    wanted: &[u8],
) -> Result<(bool, bool), Fail> {
    let text = document(alloc, first, second, "")?;
    let bytes = text.as_bytes();
    if bytes.len() > 9000 {
        return Err(Fail::new("too long"));
    }
    let mut steps: Steps<Ledger> = Steps::new();
    let tree = Tree::read(alloc, bytes, &mut steps)?;
    let doc = Doc::of(bytes, &tree);
    let externals = handed(alloc)?;
    let Ok(parts) = read_signature(alloc, doc) else {
        return Err(Fail::new("no parts"));
    };
    let Ok(refs) = read_refs(alloc, doc, &parts, &externals) else {
        return Err(Fail::new("no References"));
    };
    if k == 0 || k as usize > refs.len() {
        return Err(Fail::new("no Reference"));
    }
    let found = octets(alloc, doc, &refs, k, &externals, &PLAIN)?;
    let right = digest_ok(alloc, doc, &refs, k, &externals)?;
    Ok((found.as_slice() == wanted, right))
}

// The first Reference that covers a place, where the signature has a value.
fn cover_of(alloc: Global, first: Part, second: Part, value: &str) -> Result<Option<u32>, Fail> {
    let text = document(alloc, first, second, value)?;
    let bytes = text.as_bytes();
    if bytes.len() > 9000 {
        return Err(Fail::new("too long"));
    }
    let mut steps: Steps<Ledger> = Steps::new();
    let tree = Tree::read(alloc, bytes, &mut steps)?;
    let doc = Doc::of(bytes, &tree);
    let externals = handed(alloc)?;
    let Ok(parts) = read_signature(alloc, doc) else {
        return Err(Fail::new("no parts"));
    };
    let Ok(refs) = read_refs(alloc, doc, &parts, &externals) else {
        return Err(Fail::new("no References"));
    };
    Ok(self_cover(doc, &parts, &refs))
}

// Whether References by their two first parts have this fault.
fn fails(alloc: Global, first: Named, second: Named, fault: RefFault) -> Result<bool, Fail> {
    Ok(fault_of(alloc, part_of(first), part_of(second))? == fault)
}

const SOUND: Named = ("#d", "", SHA256);

const UNKNOWN: Named = ("#d", "", "urn:d");

const OUTSIDE: Named = ("f", "", SHA256);

const STAR: Named = ("#star", DECODED, SHA256);

const SHORT: Named = ("#short", DECODED, SHA256);

const NOWHERE: Named = ("#z", TURNED, SHA256);

const DOUBLE: Named = ("#t", "", SHA256);

fn finds_bad_targets(alloc: Global) -> Result<bool, Fail> {
    let missing = RefFault::TargetMissing { k: 2 };
    let twice = RefFault::TargetTwice { k: 2 };
    Ok(fails(alloc, SOUND, ("#z", "", SHA256), missing)? && fails(alloc, SOUND, DOUBLE, twice)?)
}

fn finds_bad_methods(alloc: Global) -> Result<bool, Fail> {
    let chain = RefFault::Chain { k: 1 };
    let digest = RefFault::DigestName { k: 2 };
    Ok(fails(alloc, ("", TURNED, SHA256), SOUND, chain)? && fails(alloc, SOUND, UNKNOWN, digest)?)
}

fn finds_bad_octets(alloc: Global) -> Result<bool, Fail> {
    let star = RefFault::Base64 { k: 1, at: 3 };
    let short = RefFault::Base64 { k: 2, at: 7 };
    Ok(
        fails(alloc, OUTSIDE, SOUND, RefFault::External { k: 1 })?
            && fails(alloc, STAR, SOUND, star)?
            && fails(alloc, SOUND, SHORT, short)?,
    )
}

#[test]
fn finds_each_fault(rt: HostRuntime) -> Result<(), Fail> {
    let alloc = rt.alloc();
    assert!(rt; finds_bad_targets(alloc)? && finds_bad_methods(alloc)?);
    assert!(rt; finds_bad_octets(alloc)?);
    Ok(())
}

#[test]
fn tells_the_first_code(rt: HostRuntime) -> Result<(), Fail> {
    let alloc = rt.alloc();
    assert!(rt; fails(alloc, DOUBLE, NOWHERE, RefFault::TargetMissing { k: 2 })?);
    assert!(rt; fails(alloc, STAR, OUTSIDE, RefFault::External { k: 2 })?);
    Ok(())
}

#[test]
fn tells_the_first_reference(rt: HostRuntime) -> Result<(), Fail> {
    let alloc = rt.alloc();
    assert!(rt; fails(alloc, NOWHERE, NOWHERE, RefFault::TargetMissing { k: 1 })?);
    assert!(rt; fails(alloc, STAR, STAR, RefFault::Base64 { k: 1, at: 3 })?);
    Ok(())
}

// The document without its signature and its comments.
const REST: &[u8] =
    b"<r><d Id=\"d\">aGVs\nbG8=</d><t Id=\"t\"></t><t id=\"t\"></t><b Id=\"star\">aGV*bG8=</b><b Id=\"short\">aGVsbG8</b></r>";

const HELLO: Part = Part {
    uri: "#d",
    transforms: DECODED,
    digest: SHA256,
    value: "LPJNul+wow4m6DsqxbninhsWHlwfp0JecwQzYpOLmCQ=",
};

// Whether a Reference has these octets, and whether it has its digest or not.
fn is_told(
    alloc: Global,
    first: Part,
    second: Part,
    k: u32,
    wanted: (&[u8], bool),
) -> Result<bool, Fail> {
    let told = tells(alloc, first, second, k, wanted.0)?;
    Ok(told.0 && told.1 == wanted.1)
}

#[test]
fn gives_octets_and_compares_digests(rt: HostRuntime) -> Result<(), Fail> {
    let alloc = rt.alloc();
    let outside = part_of(("e", DECODED, SHA256));
    assert!(rt;
        is_told(alloc, HELLO, outside, 1, (b"hello", true))?
            && is_told(alloc, HELLO, outside, 2, (b"abc ", false))?
    );
    assert!(rt;
        is_told(
            alloc,
            part_of(("", ENVELOPED, SHA256)),
            HELLO,
            1,
            (REST, false)
        )?
    );
    Ok(())
}

// Whether the first of References by their two first parts that covers a place is this one.
fn covers(
    alloc: Global,
    first: Named,
    second: Named,
    value: &str,
    wanted: Option<u32>,
) -> Result<bool, Fail> {
    Ok(cover_of(alloc, part_of(first), part_of(second), value)? == wanted)
}

const WHOLE: Named = ("", "", SHA256);

const OBJECT: Named = ("#o", "", SHA256);

#[test]
fn finds_what_covers_the_host(rt: HostRuntime) -> Result<(), Fail> {
    let alloc = rt.alloc();
    assert!(rt; covers(alloc, SOUND, ("", ENVELOPED, SHA256), "AAAA", None)?);
    assert!(rt;
        covers(alloc, SOUND, WHOLE, "AAAA", Some(2))?
            && covers(alloc, OBJECT, WHOLE, "AAAA", Some(1))?
    );
    Ok(())
}

#[test]
fn finds_what_covers_an_empty_value(rt: HostRuntime) -> Result<(), Fail> {
    let alloc = rt.alloc();
    let (properties, value) = (("#sp", "", SHA256), ("#v", "", SHA256));
    assert!(rt; covers(alloc, properties, value, "AAAA", None)?);
    assert!(rt; covers(alloc, properties, value, " ", Some(2))?);
    Ok(())
}
