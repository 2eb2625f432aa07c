//! What an item puts into a document.

ghost use Rattle.std.specs.Prelude.{◌≡◌, ◌++◌, IfOk, OnOk, true};
ghost use Rattle.std.specs.List.{list_any};
ghost use Rattle.document_model.specs.Documents.{document_of};
ghost use Rattle.signature_model.specs.Fragments.{content_of, written_octets, is_archive_kind};
ghost use Rattle.signature_parts.specs.Kinds.{kind_in};
ghost use Rattle.item_contents.specs.Contents.{content_by, fragment_by, stand_alone};
ghost use Rattle.item_contents.specs.Hosts.{in_host};
ghost use Rattle.item_contents.specs.Items.{item_of};
ghost use Rattle.item_contents.specs.Kept.{ArePartsOf, spot_in};

use crate::fragments::put_fragment;
use crate::hosts::{Host, host_of};
use crate::items::Item;
use insertions::LiveDoc;
use qualifying_props::{PropertyKind, SignatureParts};
use std::alloc::Global;
use xa_io::{Octs, OutOfMemory};

fn is_archive_stamp(kind: PropertyKind) -> bool
    ensures { result ≡ is_archive_kind (kind_in kind) }
{
    matches!(kind, PropertyKind::ArchiveStamp)
}

// Whether a signature has an archive time-stamp.
fn has_archive_stamp(parts: &SignatureParts) -> bool
    ensures { result ≡ list_any (λ property. is_archive_kind (kind_in property.kind)) parts.now.properties }
{
    for number in 0..parts.properties() {
        if is_archive_stamp(parts.property_kind(number)) {
            return true;
        }
    }
    false
}

// Whether validation data stand for themselves: there are none yet outside of time-stamp validation data, and no archive time-stamp.
fn stand_alone(parts: &SignatureParts) -> bool
    ensures { result ≡ stand_alone parts.now }
{
    !parts.has_values() && !has_archive_stamp(parts)
}

// Appends a property as it is put into its host, with the elements that are missing there.
fn put_property(
    alloc: Global,
    out: &mut Octs,
    host: Host,
    alone: bool,
    item: Item<'_>,
) -> Result<(), OutOfMemory>
    ensures { OnOk result (out.new ≡ out.old ++ written_octets (in_host host (fragment_by alone (item_of item.entry)))) }
{
    out.push_all(host.opening())?;
    put_fragment(alloc, out, alone, item)?;
    out.push_all(host.closing())
}

// What an item puts in, by the host and by whether validation data stand for themselves.
fn content_by(alloc: Global, host: Host, alone: bool, item: Item<'_>) -> Result<Octs, OutOfMemory>
    ensures { IfOk result (λ content. content ≡ written_octets (content_by host alone (item_of item.entry))) }
{
    let mut content = Octs::new(alloc);
    match item {
        Item::Value(_) => put_fragment(alloc, &mut content, alone, item)?,
        _ => put_property(alloc, &mut content, host, alone, item)?,
    }
    Ok(content)
}

// What an item puts into a document that is kept.
pub(crate) fn content_of(
    alloc: Global,
    live: &LiveDoc,
    parts: &SignatureParts,
    item: Item<'_>,
) -> Result<Octs, OutOfMemory>
    requires { ArePartsOf live.now.bytes live.now.tree parts.now }
    ensures { IfOk result (λ content. content ≡ written_octets (content_of (document_of live.now.bytes) (spot_in live.now.bytes live.now.tree parts.now.signature) (item_of item.entry))) }
{
    let host = host_of(live.doc(), parts.signature());
    content_by(alloc, host, stand_alone(parts), item)
}
