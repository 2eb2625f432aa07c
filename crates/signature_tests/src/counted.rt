//! How many certificates, revocation lists and tokens a signature has; the expected numbers are those of the objects that were made.

use crate::documents::{texts_of, with_many, with_stamper_twice};
use crate::objects::made;
use doc_spans::{Doc, Tree};
use qualifying_props::read_signature;
use signature_objects::count_objects;
use std::alloc::Global;
use std::test::Fail;
use xa_io::Steps;

struct Ledger;

// Whether the signature of a document has so many.
fn has_objects(alloc: Global, text: &str, count: usize) -> Result<bool, Fail> {
    let bytes = text.as_bytes();
    if bytes.len() > 16777216 {
        return Ok(false);
    }
    let mut steps: Steps<Ledger> = Steps::new();
    let tree = Tree::read(alloc, bytes, &mut steps)?;
    let Ok(parts) = read_signature(alloc, Doc::of(bytes, &tree)) else {
        return Err(Fail::new("no parts"));
    };
    Ok(count_objects(alloc, &parts)? == count)
}

// In KeyInfo two certificates, of which one stands there twice; both again in CertificateValues and in TimeStampValidationData; one list,
// twice; one token in two time-stamps, with the certificate of its signer.
#[test]
fn counts_what_stands_in_several_places_once(rt: HostRuntime) -> Result<(), Fail> {
    let alloc = rt.alloc();
    let texts = texts_of(alloc, &made(alloc)?)?;
    let text = with_many(alloc, &texts)?;
    assert!(rt; has_objects(alloc, text.as_str(), 5)?);
    Ok(())
}

// In KeyInfo two certificates; one token, with the certificate of its signer, which stands in CertificateValues too.
#[test]
fn counts_certificates_inside_tokens(rt: HostRuntime) -> Result<(), Fail> {
    let alloc = rt.alloc();
    let texts = texts_of(alloc, &made(alloc)?)?;
    let text = with_stamper_twice(alloc, &texts)?;
    assert!(rt; has_objects(alloc, text.as_str(), 4)?);
    Ok(())
}
