//! Documents that take an item, where this may be put in.

ghost use Rattle.std.specs.Prelude.{◌≡◌, ◌≤◌, IfOk, IsTrue, length};
ghost use Rattle.base64.specs.GeneralPurpose.{IsBytes};
ghost use Rattle.covered_items.specs.Whole.{IsWholeItem};
ghost use Rattle.doc_spans.specs.Seen.{document_in};
ghost use Rattle.item_contents.specs.Items.{item_of};
ghost use Rattle.qualifying_props.specs.PartsOf.{AreParts};
ghost use Rattle.qualifying_props.specs.Whole.{is_whole, IsWhole};
ghost use Rattle.signature_elements.specs.Standing.{spot_of};
ghost use Rattle.signature_model.specs.Covers.{IsFree};
ghost use Rattle.signature_model.specs.Keeping.{MayTake};
ghost use Rattle.signature_model.specs.Parts.{Token as IsToken};

use base64::engine::general_purpose::STANDARD;
use doc_spans::Doc;
use insertions::LiveDoc;
use item_contents::{Item, put_item, split_material};
use qualifying_props::{SignatureParts, read_signature};
use reference_chains::Externals;
use references::{read_refs, self_cover};
use signature_elements::is_blank;
use std::alloc::Global;
use std::test::Fail;
use tst_tokens::read_token;
use xa_io::{Octs, Steps};

// Marks the steps of a test.
struct Putting;

// Whether the signature is free.
fn is_free(alloc: Global, doc: Doc<'_>, parts: &SignatureParts) -> Result<bool, Fail>
    requires { AreParts doc parts.now }
    ensures { IfOk result (λ free. IsTrue free → IsFree (document_in doc.entry) (spot_of doc.entry parts.now.signature)) }
{
    match read_refs(alloc, doc, parts, &Externals::new(alloc)) {
        Ok(refs) => Ok(self_cover(doc, parts, &refs).is_none()),
        Err(_) => Err(Fail::new("no References")),
    }
}

// Whether a value comes to a signature without one, and all else to one with a value.
fn may_take(doc: Doc<'_>, parts: &SignatureParts, item: Item<'_>) -> bool
    requires { AreParts doc parts.now }
    ensures { IsTrue result → MayTake (document_in doc.entry) (spot_of doc.entry parts.now.signature) (item_of item.entry) }
{
    match item {
        Item::Value(_) => is_blank(doc, parts.value_node()),
        _ => !is_blank(doc, parts.value_node()),
    }
}

// The document with a whole item.
fn with_whole(alloc: Global, document: &[u8], item: Item<'_>) -> Result<Octs, Fail>
    requires short { length document.now ≤ 10000 }
    requires whole { IsWholeItem is_whole (item_of item) }
{
    let mut steps: Steps<Putting> = Steps::new();
    let Ok(mut live) = LiveDoc::read(alloc, document, &mut steps) else {
        return Err(Fail::new("no document"));
    };
    let doc = live.doc();
    let Ok(parts) = read_signature(alloc, doc) else {
        return Err(Fail::new("no signature"));
    };
    if !is_free(alloc, doc, &parts)? || !may_take(doc, &parts, item) {
        return Err(Fail::new("the item may not be put in"));
    }
    match put_item(alloc, &mut live, &parts, item, &mut steps) {
        Ok(()) => Ok(live.into_bytes()),
        Err(_) => Err(Fail::new("the item is not put in")),
    }
}

// Octets in memory are bytes.
fn is_value(octets: &[u8]) -> bool
    ensures { IsTrue result → IsBytes octets.now }
{
    octets.len() < 100
}

fn is_token(octets: &[u8]) -> bool
    ensures bytes { IsTrue result → IsBytes octets.now }
    ensures whole { IsTrue result → IsWhole IsToken octets.now }
{
    read_token(octets).is_ok()
}

fn is_whole(item: Item<'_>) -> bool
    ensures { IsTrue result → IsWholeItem is_whole (item_of item.entry) }
{
    match item {
        Item::Value(value) => is_value(value),
        Item::Stamp(token) => is_token(token),
        Item::Archive(token) => is_token(token),
        Item::Data { .. } => false,
    }
}

// The document with a value or a time-stamp.
pub(crate) fn with_item(alloc: Global, document: &[u8], item: Item<'_>) -> Result<Octs, Fail> {
    if document.len() <= 10_000 && is_whole(item) {
        with_whole(alloc, document, item)
    } else {
        Err(Fail::new("the item isn't whole"))
    }
}

// The document with the certificates and revocation lists of a file.
pub(crate) fn with_file(alloc: Global, document: &[u8], file: &[u8]) -> Result<Octs, Fail> {
    let Ok(material) = split_material(alloc, file) else {
        return Err(Fail::new("no validation data"));
    };
    if document.len() <= 10_000 {
        with_whole(alloc, document, material.item())
    } else {
        Err(Fail::new("too long"))
    }
}

pub(crate) fn decoded(alloc: Global, text: &str) -> Result<Vec<u8>, Fail> {
    Ok(STANDARD.decode(alloc, text.as_bytes())?)
}
