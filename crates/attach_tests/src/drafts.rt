//! A document that is prepared from a draft with one certificate, whose References are to the whole document and to one element.

ghost use Rattle.std.specs.Prelude.{◌≡◌, ◌∷◌, [], false, IsTrue, IfOk};
ghost use Rattle.std.specs.List.{list_all};
ghost use Rattle.std.specs.Str.{chars};
ghost use Rattle.document_model.specs.Characters.{is_empty};
ghost use Rattle.insertion_fragments.specs.Fragment.{is_simple, may_write};
ghost use Rattle.prepared_documents.specs.Judged.{IsHanded};
ghost use Rattle.reference_chains.specs.HandedIn.{handed_in};
ghost use Rattle.signature_model.specs.Chains.{place_named};
ghost use Rattle.signature_model.specs.Spots.{without_white};
ghost use Rattle.augmenter.specs.Preparing.{IsReady};

use algorithms::DigestKind;
use augmenter::{Draft, prepare};
use policy_rules::Policy;
use reference_chains::Externals;
use std::alloc::Global;
use std::test::Fail;
use x509_certs::read_certificate;
use xa_io::Octs;
use xml_items::classes::first;

// The first second of 2030.
pub(crate) const START: i64 = 1_893_456_000;

// The identifier of the signature, the URI of its method, and the URIs of its References.
const ID: &str = "s";

pub(crate) const METHOD: &str = "urn:sample:hss";

const WHOLE: &str = "";

const ELEMENT: &str = "#x";

fn may_stand(c: char) -> bool
    ensures { result ≡ may_write c }
{
    matches!(c as u32, 0x20..=0xD7FF | 0xE000..=0xFFFD | 0x1_0000..=0x10_FFFF)
}

fn is_writable(text: &str) -> bool
    ensures { result ≡ list_all may_write (chars text.now) }
{
    text.chars().all(|c| may_stand(c))
}

fn is_plain(octet: u8) -> bool
    ensures { result ≡ is_simple octet }
{
    matches!(octet, 0x20..=0x21 | 0x23..=0x25 | 0x28..=0x3B | 0x3D | 0x3F..=0x5C | 0x5E..=0x7E)
}

fn are_plain(octets: &[u8]) -> bool
    ensures { result ≡ list_all is_simple octets.now }
{
    octets.iter().all(|octet| is_plain(*octet))
}

// Whether octets are a text that is written as it stands and doesn't begin with a space.
fn is_time(octets: &[u8]) -> bool
    ensures simple { IsTrue result → IsTrue (list_all is_simple octets.now) }
    ensures timed { IsTrue result → is_empty (without_white octets.now) ≡ false }
{
    matches!(octets, [first, ..] if *first > 0x20) && are_plain(octets)
}

// Whether a URI names nothing outside of the document, or octets that are handed in.
fn is_handed(uri: &str, externals: &Externals) -> bool
    ensures { IsTrue result → IsHanded (handed_in externals.now) (place_named (chars uri.now)) (chars uri.now) }
{
    match first(uri) {
        None => true,
        Some(('#', _)) => true,
        Some(_) => externals.get(uri).is_some(),
    }
}

// The draft with two URIs, where it is whole.
fn draft_of(alloc: Global, uri: &str, further: &str, certificate: &[u8]) -> Result<Draft, Fail>
    ensures ready { IfOk result (λ draft. IsReady draft) }
    ensures uris { IfOk result (λ draft. draft.references ≡ chars uri.now ∷ chars further.now ∷ []) }
{
    let mut draft = Draft::new(alloc, START, ID, METHOD, DigestKind::Sha256)?;
    draft.add_cert(certificate)?;
    draft.add_ref(uri)?;
    draft.add_ref(further)?;
    let is_named = is_writable(ID) && is_writable(METHOD);
    let is_referring = is_writable(uri) && is_writable(further);
    let is_certified = read_certificate(certificate).is_ok();
    if is_named && is_referring && is_certified && is_time(draft.time()) {
        Ok(draft)
    } else {
        Err(Fail::new("the draft isn't whole"))
    }
}

// A document that is prepared for a signer.
pub(crate) fn prepared(
    alloc: Global,
    document: &[u8],
    certificate: &[u8],
    policy: &Policy,
) -> Result<Octs, Fail> {
    let externals = Externals::new(alloc);
    let draft = draft_of(alloc, WHOLE, ELEMENT, certificate)?;
    let is_inside = is_handed(WHOLE, &externals) && is_handed(ELEMENT, &externals);
    if document.len() > 1000 || !is_inside {
        return Err(Fail::new("octets aren't handed in"));
    }
    match prepare(alloc, document, &draft, policy, &externals) {
        Ok(document) => Ok(document),
        Err(_) => Err(Fail::new("not prepared")),
    }
}
