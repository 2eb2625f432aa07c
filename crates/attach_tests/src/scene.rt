//! A document that is prepared once, a value by the key of its certificate, and what is attached.

ghost use Rattle.reference_chains.specs.HandedIn.{handed_in};
ghost use Rattle.signature_checks.specs.Opening.{AreShort};

use crate::drafts::{START, prepared};
use archive_octets::signed_octets;
use augmenter::{Item, ItemKind, Refusal, attach};
use base64::engine::general_purpose::STANDARD;
use doc_spans::{Doc, Tree};
use policy_rules::{Policy, read_policy};
use qualifying_props::read_signature;
use reference_chains::Externals;
use sample_world::{Role, World};
use std::alloc::Global;
use std::test::Fail;
use xa_io::{Octs, Steps};

// Marks the steps of a test.
struct Attaching;

// The last second of 2032.
const END: i64 = 1_988_150_399;

// The document that is prepared.
const DOCUMENT: &[u8] = b"<r><a Id=\"x\">text</a></r>";

// What policies list: the method as one of HSS, another method, and the method as one of XMSS.
pub(crate) const LISTED: &str =
    "[[kind]]\nname = \"hss\"\nuri = [\"urn:sample:hss\"]\n[[digest]]\nname = \"sha256\"\n";

pub(crate) const UNLISTED: &str =
    "[[kind]]\nname = \"hss\"\nuri = [\"urn:other\"]\n[[digest]]\nname = \"sha256\"\n";

pub(crate) const MISLISTED: &str =
    "[[kind]]\nname = \"xmss\"\nuri = [\"urn:sample:hss\"]\n[[digest]]\nname = \"sha256\"\n";

// The signer's certificate and another of the same key, in base64; the prepared document; and a value over what it signs.
#[derive(Drop)]
pub(crate) struct Scene {
    alloc: Global,
    certificate: String,
    other: String,
    prepared: Octs,
    value: Octs,
}

// The text of a policy that trusts one certificate.
fn policy_text(alloc: Global, anchor: &str, tables: &str) -> Result<String, Fail> {
    Ok(format!(in alloc; "version = 1\nanchors = [\"{anchor}\"]\n{tables}")?)
}

fn policy_of(alloc: Global, anchor: &str, tables: &str) -> Result<Policy, Fail> {
    let text = policy_text(alloc, anchor, tables)?;
    match read_policy(alloc, text.as_bytes()) {
        Ok(policy) => Ok(policy),
        Err(_) => Err(Fail::new("no policy")),
    }
}

// The octets that a document signs.
fn to_sign(alloc: Global, document: &[u8]) -> Result<Octs, Fail> {
    if document.len() > 100_000 {
        return Err(Fail::new("too long"));
    }
    let mut steps: Steps<Attaching> = Steps::new();
    let tree = Tree::read(alloc, document, &mut steps)?;
    let doc = Doc::of(document, &tree);
    match read_signature(alloc, doc) {
        Ok(parts) => Ok(signed_octets(alloc, doc, &parts)?),
        Err(_) => Err(Fail::new("no signature")),
    }
}

// Nothing is handed in.
fn nothing(alloc: Global) -> Externals
    ensures { AreShort (handed_in result) }
{
    Externals::new(alloc)
}

// The values as items.
fn items_of(alloc: Global, values: &[&[u8]]) -> Result<Vec<Item>, Fail> {
    let mut items = Vec::new(alloc);
    for value in values {
        let mut bytes = Octs::new(alloc);
        bytes.push_all(value)?;
        items.push(Item {
            kind: ItemKind::Value,
            bytes,
        })?;
    }
    Ok(items)
}

// Octets in which the first part that is the one text is the other.
fn replaced(alloc: Global, octets: &[u8], old: &str, new: &str) -> Result<Octs, Fail> {
    for at in 0..octets.len() {
        if let Some(rest) = octets[at..].strip_prefix(old.as_bytes()) {
            let mut out = Octs::new(alloc);
            out.push_all(&octets[..at])?;
            out.push_all(new.as_bytes())?;
            out.push_all(rest)?;
            return Ok(out);
        }
    }
    Err(Fail::new("no such part"))
}

// Octets of which the last is another.
pub(crate) fn bent(alloc: Global, octets: &[u8]) -> Result<Octs, Fail> {
    match octets {
        [front @ .., last] => {
            let mut out = Octs::new(alloc);
            out.push_all(front)?;
            out.push_all(&[*last ^ 1])?;
            Ok(out)
        }
        [] => Err(Fail::new("no octets")),
    }
}

impl Scene {
    pub(crate) fn new(alloc: Global) -> Result<Scene, Fail> {
        let mut world = World::new(alloc, 7);
        let certificate = world.certificate(0, 0, START, END, Role::Signer)?;
        let other = world.certificate(0, 0, START, END - 1, Role::Signer)?;
        let spelled = STANDARD.encode(alloc, certificate.as_slice())?;
        let policy = policy_of(alloc, spelled.as_str(), LISTED)?;
        let prepared = prepared(alloc, DOCUMENT, certificate.as_slice(), &policy)?;
        let octets = to_sign(alloc, prepared.as_slice())?;
        Ok(Scene {
            alloc,
            certificate: spelled,
            other: STANDARD.encode(alloc, other.as_slice())?,
            prepared,
            value: world.sign(0, octets.as_slice())?,
        })
    }

    pub(crate) fn prepared(&self) -> &[u8] {
        self.prepared.as_slice()
    }

    pub(crate) fn value(&self) -> &[u8] {
        self.value.as_slice()
    }

    // The prepared document in which the first part that is the one text is the other.
    pub(crate) fn changed(&self, old: &str, new: &str) -> Result<Octs, Fail> {
        replaced(self.alloc, self.prepared(), old, new)
    }

    // The text of a policy that lists the method.
    pub(crate) fn policy(&self) -> Result<String, Fail> {
        policy_text(self.alloc, self.certificate.as_str(), LISTED)
    }

    // The prepared document with the value in base64 where it belongs.
    pub(crate) fn signed(&self) -> Result<Octs, Fail> {
        let value = STANDARD.encode(self.alloc, self.value())?;
        let element = format!(in self.alloc; "<ds:SignatureValue>{value}</ds:SignatureValue>")?;
        self.changed("<ds:SignatureValue></ds:SignatureValue>", element.as_str())
    }

    // The prepared document with the other certificate in place of the signer's.
    pub(crate) fn with_other_certificate(&self) -> Result<Octs, Fail> {
        self.changed(self.certificate.as_str(), self.other.as_str())
    }

    // What comes of a document to which values are attached, by a policy with these tables.
    pub(crate) fn attached(
        &self,
        tables: &str,
        document: &[u8],
        values: &[&[u8]],
    ) -> Result<Result<Octs, Refusal>, Fail> {
        let policy = policy_of(self.alloc, self.certificate.as_str(), tables)?;
        let externals = nothing(self.alloc);
        let items = items_of(self.alloc, values)?;
        let items = items.as_slice();
        if document.len() > 100_000 || items.len() > 64 {
            return Err(Fail::new("too many"));
        }
        Ok(attach(self.alloc, document, items, &policy, END, &externals))
    }
}
