//! Items that are put into a document.

ghost use Rattle.std.specs.Prelude.{◌≡◌, ◌≤◌, length, None, OnOk, OnErr, IsErrOf};
ghost use Rattle.attached_items.specs.ReadAgain.{IsReadFree};
ghost use Rattle.attached_lists.specs.Accepted.{IsReadFile};
ghost use Rattle.covered_items.specs.Whole.{IsWholeItem};
ghost use Rattle.document_model.specs.Documents.{document_of, fault};
ghost use Rattle.insertions.specs.Live.{longest};
ghost use Rattle.qualifying_props.specs.Whole.{is_whole};
ghost use Rattle.signature_model.specs.Fragments.{bytes_with_item, with_item};
ghost use Rattle.signature_model.specs.Keeping.{MayTake};
ghost use Rattle.xa_io.specs.Causes.{counted};
ghost use Rattle.item_contents.specs.Contents.{place_by};
ghost use Rattle.item_contents.specs.Items.{item_of};
ghost use Rattle.item_contents.specs.Kept.{ArePartsOf, PassesLimit, spot_in};

use crate::contents::content_of;
use crate::items::Item;
use doc_spans::NodeId;
use insertions::{GraftFault, LiveDoc};
use qualifying_props::SignatureParts;
use std::alloc::Global;
use xa_io::{OutOfMemory, Steps};

// The element that an item is put into.
fn place_of(parts: &SignatureParts, item: Item<'_>) -> NodeId
    ensures { result ≡ place_by parts.now (item_of item.entry) }
{
    match item {
        Item::Value(_) => parts.value_node(),
        _ => parts.host(),
    }
}

/// Puts an item into a document that is kept: a value into its signature's `SignatureValue`, all else as the last of its unsigned properties
/// (XML Signature 1.1, section 4.3; EN 319 132-1, clauses 4.3, 5.3, 5.4 and 5.5). It counts a step for each byte of the new document.
///
/// The parts are those of the signature of the document. This is free: its References hold no place at which something may be put in. A
/// value comes to a signature without one, all else to one that has a value, and tokens, certificates and lists are whole.
///
/// Err: the new document would pass a limit on bytes, depth or nodes, or memory could not be had. The document is then as before.
pub fn put_item<L>(
    alloc: Global,
    live: &mut LiveDoc,
    parts: &SignatureParts,
    item: Item<'_>,
    steps: &mut Steps<L>,
) -> Result<(), GraftFault>
    requires parts { ArePartsOf live.old.bytes live.old.tree parts.now }
    requires read { IsReadFree is_whole (document_of live.old.bytes) (spot_in live.old.bytes live.old.tree parts.now.signature) }
    requires may { MayTake (document_of live.old.bytes) (spot_in live.old.bytes live.old.tree parts.now.signature) (item_of item) }
    requires whole { IsWholeItem is_whole (item_of item) }
    ensures bytes { OnOk result (live.new.bytes ≡ bytes_with_item (document_of live.old.bytes) (spot_in live.old.bytes live.old.tree parts.now.signature) (item_of item.entry) live.old.bytes) }
    ensures tree { OnOk result (document_of live.new.bytes ≡ with_item (document_of live.old.bytes) (spot_in live.old.bytes live.old.tree parts.now.signature) (item_of item.entry)) }
    // It is read again with the same signature, which is free again.
    ensures read { OnOk result (IsReadFile is_whole (spot_in live.old.bytes live.old.tree parts.now.signature) live.new.bytes) }
    ensures small { OnOk result ((length live.new.bytes ≤ longest) × (fault live.new.bytes ≡ None)) }
    ensures large { IsErrOf result GraftFault.TooLarge
        → PassesLimit (bytes_with_item (document_of live.old.bytes) (spot_in live.old.bytes live.old.tree parts.now.signature) (item_of item.entry) live.old.bytes) }
    ensures steps { OnOk result (steps.new ≡ counted steps.old (length live.new.bytes)) }
    ensures err { OnErr result ((live.new.bytes ≡ live.old.bytes) × (live.new.tree ≡ live.old.tree)) }
{
    let content = match content_of(alloc, live, parts, item) {
        Ok(content) => content,
        Err(OutOfMemory) => return Err(GraftFault::OutOfMemory),
    };
    live.insert(place_of(parts, item), content.as_slice(), steps)
}
