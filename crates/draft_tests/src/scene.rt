//! Drafts with one certificate and two URIs, of which the second names octets that are handed in, and what is prepared from them.

ghost use Rattle.std.specs.Prelude.{◌≡◌, ◌∷◌, [], false, IsTrue, IfOk};
ghost use Rattle.std.specs.List.{list_all};
ghost use Rattle.std.specs.Str.{chars};
ghost use Rattle.document_model.specs.Characters.{is_empty};
ghost use Rattle.insertion_fragments.specs.Fragment.{is_simple, may_write};
ghost use Rattle.prepared_documents.specs.Judged.{IsHanded};
ghost use Rattle.reference_chains.specs.HandedIn.{handed_in};
ghost use Rattle.signature_model.specs.Chains.{place_named};
ghost use Rattle.signature_model.specs.Spots.{without_white};
ghost use Rattle.augmenter.specs.Preparing.{IsReady};

use algorithms::DigestKind;
use augmenter::{Draft, Refusal, prepare};
use base64::engine::general_purpose::STANDARD;
use policy_rules::{Policy, read_policy};
use reference_chains::Externals;
use std::alloc::Global;
use std::test::Fail;
use x509_certs::read_certificate;
use xa_io::Octs;
use xml_items::classes::first;

// The first second of 2030.
const START: i64 = 1_893_456_000;

// A certificate with an HSS key that was worked out elsewhere, in base64.
const CERTIFICATE: &str =
    "MIGtMIGWoAMCAQICAQcwDQYLKoZIhvcNAQkQAxEwDTELMAkGA1UEAwwCSzEwIBcNMzAwMTAxMDAwMDAwWhgPMjA3MDAxMDEwMDAwMDBaMA0xCzAJBgNVBAMMAksxMBUwDQYLKoZIhvcNAQkQAxEDBAABAgOjJjAkMBIGA1UdEwEB/wQIMAYBAf8CAQMwDgYDVR0PAQH/BAQDAgIEMA0GCyqGSIb3DQEJEAMRAwMACQk=";

// The methods that the policy lists.
const TABLES: &str =
    "[[kind]]\nname = \"hss\"\nuri = [\"urn:sample:hss\"]\n[[kind]]\nname = \"xmss\"\nuri = [\"urn:sample:xmss\"]\n[[digest]]\nname = \"sha256\"\n";

// The URI of the octets that are handed in.
const FILE: &str = "e";

// What the tests alter in a draft: the identifier, the URI of the method, and the first URI.
#[derive(Clone, Copy)]
pub(crate) struct Wish<'a> {
    pub(crate) id: &'a str,
    pub(crate) method: &'a str,
    pub(crate) uri: &'a str,
}

// What documents are prepared with.
#[derive(Drop)]
pub(crate) struct Scene {
    alloc: Global,
    certificate: Vec<u8>,
    policy: Policy,
    externals: Externals,
}

fn policy(alloc: Global) -> Result<Policy, Fail> {
    let text = format!(in alloc; "version = 1\nanchors = [\"{CERTIFICATE}\"]\n{TABLES}")?;
    match read_policy(alloc, text.as_bytes()) {
        Ok(policy) => Ok(policy),
        Err(_) => Err(Fail::new("no policy")),
    }
}

fn may_stand(c: char) -> bool
    ensures { result ≡ may_write c }
{
    matches!(c as u32, 0x20..=0xD7FF | 0xE000..=0xFFFD | 0x1_0000..=0x10_FFFF)
}

fn is_writable(text: &str) -> bool
    ensures { result ≡ list_all may_write (chars text.now) }
{
    text.chars().all(|c| may_stand(c))
}

fn is_plain(octet: u8) -> bool
    ensures { result ≡ is_simple octet }
{
    matches!(octet, 0x20..=0x21 | 0x23..=0x25 | 0x28..=0x3B | 0x3D | 0x3F..=0x5C | 0x5E..=0x7E)
}

fn are_plain(octets: &[u8]) -> bool
    ensures { result ≡ list_all is_simple octets.now }
{
    octets.iter().all(|octet| is_plain(*octet))
}

// Whether octets are a text that is written as it stands and doesn't begin with a space.
fn is_time(octets: &[u8]) -> bool
    ensures simple { IsTrue result → IsTrue (list_all is_simple octets.now) }
    ensures timed { IsTrue result → is_empty (without_white octets.now) ≡ false }
{
    matches!(octets, [first, ..] if *first > 0x20) && are_plain(octets)
}

// Whether a URI names nothing outside of the document, or octets that are handed in.
fn is_handed(uri: &str, externals: &Externals) -> bool
    ensures { IsTrue result → IsHanded (handed_in externals.now) (place_named (chars uri.now)) (chars uri.now) }
{
    match first(uri) {
        None => true,
        Some(('#', _)) => true,
        Some(_) => externals.get(uri).is_some(),
    }
}

// The draft, with one more URI, where it is whole.
fn draft_of(alloc: Global, wish: Wish<'_>, further: &str, certificate: &[u8]) -> Result<Draft, Fail>
    ensures ready { IfOk result (λ draft. IsReady draft) }
    ensures uris { IfOk result (λ draft. draft.references ≡ chars wish.entry.uri.now ∷ chars further.now ∷ []) }
{
    let mut draft = Draft::new(alloc, START, wish.id, wish.method, DigestKind::Sha256)?;
    draft.add_cert(certificate)?;
    draft.add_ref(wish.uri)?;
    draft.add_ref(further)?;
    let is_named = is_writable(wish.id) && is_writable(wish.method);
    let is_referring = is_writable(wish.uri) && is_writable(further);
    let is_certified = read_certificate(certificate).is_ok();
    if is_named && is_referring && is_certified && is_time(draft.time()) {
        Ok(draft)
    } else {
        Err(Fail::new("the draft isn't whole"))
    }
}

impl Scene {
    pub(crate) fn new(alloc: Global) -> Result<Scene, Fail> {
        let mut externals = Externals::new(alloc);
        let mut octets = Octs::new(alloc);
        octets.push_all(b"abc")?;
        externals.add(FILE, octets)?;
        Ok(Scene {
            alloc,
            certificate: STANDARD.decode(alloc, CERTIFICATE.as_bytes())?,
            policy: policy(alloc)?,
            externals,
        })
    }

    // What is prepared from a document.
    pub(crate) fn prepared(
        &self,
        document: &[u8],
        wish: Wish<'_>,
    ) -> Result<Result<Octs, Refusal>, Fail> {
        let draft = draft_of(self.alloc, wish, FILE, self.certificate.as_slice())?;
        let externals = &self.externals;
        if document.len() <= 1000 && is_handed(wish.uri, externals) && is_handed(FILE, externals) {
            Ok(prepare(self.alloc, document, &draft, &self.policy, externals))
        } else {
            Err(Fail::new("octets aren't handed in"))
        }
    }
}
