//! Attributes in the order in which they are written.

ghost use Rattle.std.specs.Prelude.{◌≡◌, ◌≤◌, ◌++◌, [], length, insert, encode_utf8_all, OnOk};
ghost use Rattle.std.specs.Str.{chars};
ghost use Rattle.document_model.specs.Canonical.{placed, sorted, has_local};
ghost use Rattle.canon_tags.specs.Entries.{entry_in, entries_in, is_named_before, attributes_of_entries, entries_text};

use crate::entries::Entry;
use crate::writing::put_attribute;
use std::alloc::AllocError;
use xa_io::{Octs, OutOfMemory};
use xml_items::texts::{is, same};

// Whether an `xml:` attribute of this local name is among entries.
pub(crate) fn has_local(entries: &[Entry<'_>], local: &str) -> bool
    ensures { result ≡ has_local (chars local.now) (attributes_of_entries (entries_in entries.now)) }
{
    'entries: for entry in entries {
        if is(entry.prefix, "xml") && same(entry.local, local) {
            return true;
        }
    }
    false
}

// The place of an entry among others: before the first that isn't before it.
fn place_of<'a>(entries: &[Entry<'a>], entry: &Entry<'a>) -> usize
    ensures bound { result ≤ length entries.now }
    ensures place { placed is_named_before (entry_in entry.now) (entries_in entries.now) ≡ insert (entries_in entries.now) result (entry_in entry.now) }
{
    let mut at = 0;
    'entries: while at < entries.len() {
        if !entries[at].is_before(entry) {
            return at;
        }
        at += 1;
    }
    at
}

fn place<'a>(entries: &mut Vec<Entry<'a>>, entry: Entry<'a>) -> Result<(), AllocError>
    ensures { OnOk result (entries_in entries.new.items ≡ placed is_named_before (entry_in entry.entry) (entries_in entries.old.items)) }
{
    let at = place_of(entries.as_slice(), &entry);
    entries.insert(at, entry)?;
    Ok(())
}

// Moves entries to an empty list, in their order.
pub(crate) fn put_in_order<'a>(
    pending: &mut Vec<Entry<'a>>,
    entries: &mut Vec<Entry<'a>>,
) -> Result<(), AllocError>
    requires { entries.old.items ≡ [] }
    ensures { OnOk result (entries_in entries.new.items ≡ sorted is_named_before (entries_in pending.old.items)) }
{
    'entries: while let Some(entry) = pending.pop() {
        place(entries, entry)?;
    }
    Ok(())
}

// Appends attributes.
pub(crate) fn put_entries(out: &mut Octs, entries: &[Entry<'_>]) -> Result<(), OutOfMemory>
    ensures { OnOk result (out.new ≡ out.old ++ encode_utf8_all (entries_text (entries_in entries.now))) }
{
    'entries: for entry in entries {
        put_attribute(out, entry.prefix, entry.local, entry.value)?;
    }
    Ok(())
}
