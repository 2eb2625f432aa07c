// Items that are attached to a document.
ghost use Rattle.std.specs.Prelude.{◌≡◌, ◌≤◌, ◌++◌, ◌∷◌, [], List, ℕ, length, map, IfOk, Ok, OnOk};
ghost use Rattle.policy_rules.specs.View.{rules};
ghost use Rattle.reference_chains.specs.HandedIn.{handed_in};
ghost use Rattle.signature_checks.specs.Opening.{AreShort};
ghost use Rattle.whole_files.specs.Wants.{AreFor, held_of};
ghost use Rattle.xades_cli.specs.Attach.{IsAttached, IsAttachedOf, IsAttachOutcome, IsItemsOutcome, IsOutcomeBy, items_of, kind_of};
ghost use Rattle.xades_cli.specs.Computed.{IsResultOf};
ghost use Rattle.command_words.specs.Attaching.{attach_wants, attaches_of};
ghost use Rattle.xades_cli.specs.Handing.{handed_by};

use crate::answers::Answer;
use crate::prepare::policy_by;
use crate::stop::{Refusal, Stop};
use augmenter::{Item, ItemKind, Refusal as Refused, attach};
use command_words::Attachment;
use policy_rules::Policy;
use references::Externals;
use std::alloc::Global;
use whole_files::{File, Role, policy_of};
use xa_io::{Octs, OutOfMemory};

// What files are attached, and what is handed in.
#[derive(Drop)]
struct Taken {
    items: Vec<Item>,
    externals: Externals,
}

// The kind of the item that a file is, where it is one.
fn kind_of(role: Role) -> Option<ItemKind>
    ensures { result ≡ kind_of role }
{
    match role {
        Role::Value => Some(ItemKind::Value),
        Role::Stamp => Some(ItemKind::Stamp),
        Role::Data => Some(ItemKind::Material),
        Role::Archive => Some(ItemKind::Archive),
        _ => None,
    }
}

fn push_item(items: &mut Vec<Item>, kind: ItemKind, bytes: Octs) -> Result<(), OutOfMemory>
    ensures { OnOk result (items.new.items ≡ items.old.items ++ record { kind = kind; bytes = bytes } ∷ []) }
{
    match items.push(Item { kind, bytes }) {
        Ok(()) => Ok(()),
        Err(_) => Err(OutOfMemory),
    }
}

// The items, and what is handed in, of files in their order.
fn take(alloc: Global, files: Vec<File<'_>>) -> Result<Taken, OutOfMemory>
    ensures items { IfOk result (λ taken. taken.items.items ≡ items_of (map held_of files.entry.items)) }
    ensures externals { IfOk result (λ taken. (wanted : List ℕ) → handed_in taken.externals wanted ≡ handed_by (map held_of files.entry.items) wanted) }
{
    let mut items = Vec::new(alloc);
    let mut externals = Externals::new(alloc);
    for file in files {
        if file.role.is_external() {
            externals.add(file.name, file.bytes)?;
        } else {
            match kind_of(file.role) {
                Some(kind) => push_item(&mut items, kind, file.bytes)?,
                None => {}
            }
        }
    }
    Ok(Taken { items, externals })
}

// The document with items, or why one is refused.
fn write_attached(
    alloc: Global,
    document: &[u8],
    items: &[Item],
    policy: &Policy,
    at: i64,
    externals: &Externals,
) -> Result<Answer, Stop>
    requires document { length document.now ≤ 16777216 }
    requires items { length items.now ≤ 64 }
    requires handed { AreShort (handed_in externals.now) }
    ensures { IsResultOf (IsItemsOutcome (rules policy.now) (handed_in externals.now) at items.now document.now) (IsAttachedOf (handed_in externals.now) items.now document.now) result }
{
    match attach(alloc, document, items, policy, at, externals) {
        Ok(text) => Ok(Answer::Text(text)),
        Err(Refused::BadDocument(fault)) => Err(Stop::Refusal(Refusal::Document {
            fault,
            size: document.len(),
        })),
        Err(Refused::Refused { item, code }) => { Err(Stop::Refusal(Refusal::Item { item, code })) }
        Err(Refused::OutOfMemory) => Err(Stop::OutOfMemory),
    }
}

// The document with the items of the files.
fn take_and_write(
    alloc: Global,
    asked: &Attachment<'_>,
    policy: &Policy,
    mut files: Vec<File<'_>>,
) -> Result<Answer, Stop>
    requires few { length (attaches_of asked.now).items ≤ 64 }
    requires read { AreFor (attach_wants (attaches_of asked.now)) (map held_of files.items) }
    ensures { IsResultOf (IsOutcomeBy (Ok (rules policy.now)) (attaches_of asked.now).at (map held_of files.entry.items)) (IsAttached (map held_of files.entry.items)) result }
{
    let document = files.remove(0);
    let taken = match take(alloc, files) {
        Ok(taken) => taken,
        Err(OutOfMemory) => return Err(Stop::OutOfMemory),
    };
    write_attached(
        alloc,
        document.bytes.as_slice(),
        taken.items.as_slice(),
        policy,
        asked.at,
        &taken.externals,
    )
}

/// The document with the items that the words ask for, one after another; or why it is refused, by the policy, the document or an item, in
/// this order.
pub fn attach_items(
    alloc: Global,
    asked: &Attachment<'_>,
    files: Vec<File<'_>>,
) -> Result<Answer, Stop>
    requires few { length (attaches_of asked.now).items ≤ 64 }
    requires read { AreFor (attach_wants (attaches_of asked.now)) (map held_of files.items) }
    ensures { IsResultOf (IsAttachOutcome (attaches_of asked.now).at (map held_of files.entry.items)) (IsAttached (map held_of files.entry.items)) result }
{
    let policy = match policy_by(alloc, policy_of(files.as_slice())) {
        Ok(policy) => policy,
        Err(stop) => return Err(stop),
    };
    take_and_write(alloc, asked, &policy, files)
}
