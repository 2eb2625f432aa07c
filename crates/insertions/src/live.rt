//! A document's bytes with their tree, kept while content is put into it.

ghost use Rattle.std.specs.Prelude.{◌≡◌, ℕ, ◌<◌, ◌≤◌, ◌⊎◌, length, None, Some, IfOk, IfErr, OnOk, OnErr, IsErrOf, option_map};
ghost use Rattle.document_model.specs.Tree.{IsElementAt, node_at};
ghost use Rattle.document_model.specs.Documents.{fault, document_of};
ghost use Rattle.document_model.specs.Insertion.{put_inside};
ghost use Rattle.doc_spans.specs.Faults.{IsFirstFault};
ghost use Rattle.doc_spans.specs.Shown.{IsShownOf, path_at, kind_of};
ghost use Rattle.doc_spans.specs.Seen.{bytes_in, shown_in};
ghost use Rattle.xa_io.specs.Causes.{counted};
ghost use Rattle.insertions.specs.Live.{longest, IsPassed, IsContentOf, HasContent, IsTooLarge};

use crate::putting::put;
use doc_spans::{Doc, DocFault, Kind, NodeId, Tree};
use std::alloc::Global;
use xa_io::{Octs, OutOfMemory, Steps};

/// Why content was not put in.
#[derive(Clone, Copy, Debug)]
pub enum GraftFault {
    /// The new document would pass a limit on bytes, depth or nodes.
    TooLarge,
    /// There was no memory.
    OutOfMemory,
}

/// A document's bytes with their tree.
#[derive(Drop)]
pub struct LiveDoc {
    alloc: Global,
    bytes: Octs,
    tree: Tree,
    ghost whole: { ∥ IsShownOf tree bytes ∥₁ },
}

impl LiveDoc {
    /// Reads a document, and counts one step for each of its bytes.
    pub fn read<L>(alloc: Global, bytes: &[u8], steps: &mut Steps<L>) -> Result<LiveDoc, DocFault>
        requires { length bytes.now ≤ longest }
        ensures bytes { IfOk result (λ live. live.bytes ≡ bytes.now) }
        ensures fault { IfErr result (λ e. IsFirstFault e bytes.now) }
        ensures steps { OnOk result (steps.new ≡ counted steps.old (length bytes.now)) }
    {
        let tree = Tree::read(alloc, bytes, steps)?;
        let mut kept = Octs::new(alloc);
        match kept.push_all(bytes) {
            Ok(()) => Ok(LiveDoc {
                alloc,
                bytes: kept,
                tree,
            }),
            Err(OutOfMemory) => Err(DocFault::OutOfMemory),
        }
    }

    /// The bytes.
    pub fn bytes(&self) -> &[u8]
        ensures { result.now ≡ self.now.bytes }
    {
        self.bytes.as_slice()
    }

    /// The bytes alone.
    pub fn into_bytes(self) -> Octs
        ensures { result ≡ self.bytes }
    {
        self.bytes
    }

    /// The document.
    pub fn doc(&self) -> Doc<'_>
        ensures bytes { bytes_in result ≡ self.now.bytes }
        ensures tree { shown_in result ≡ self.now.tree }
    {
        Doc::of(self.bytes.as_slice(), &self.tree)
    }

    /// Puts content into an element as its last children. After a fault all is as before.
    pub fn insert<L>(
        &mut self,
        element: NodeId,
        content: &[u8],
        steps: &mut Steps<L>,
    ) -> Result<(), GraftFault>
        requires has { element.0 < length self.old.tree.places }
        requires element { option_map kind_of (node_at (document_of self.old.bytes) (path_at self.old.tree element.0)) ≡ Some Kind.Element }
        requires content { IsContentOf self.old.bytes (path_at self.old.tree element.0) content.now }
        ensures bytes { OnOk result (self.new.bytes ≡ put_inside content.now (path_at self.old.tree element.0) self.old.bytes) }
        ensures tree { OnOk result (HasContent self.old.bytes (path_at self.old.tree element.0) content.now self.new.bytes) }
        ensures small { OnOk result ((length self.new.bytes ≤ longest) × (fault self.new.bytes ≡ None)) }
        ensures large { IsErrOf result GraftFault.TooLarge → IsTooLarge self.old.bytes (path_at self.old.tree element.0) content.now }
        ensures steps { OnOk result (steps.new ≡ counted steps.old (length self.new.bytes)) }
        ensures err { OnErr result ((self.new.bytes ≡ self.old.bytes) × (self.new.tree ≡ self.old.tree)) }
    {
        let new = match put(self.alloc, self.doc(), element, content) {
            Ok(new) => new,
            Err(OutOfMemory) => return Err(GraftFault::OutOfMemory),
        };
        if new.as_slice().len() > LONGEST {
            return Err(GraftFault::TooLarge);
        }
        let tree = match read_new(self.alloc, new.as_slice(), steps) {
            Ok(tree) => tree,
            Err(fault) => return Err(fault),
        };
        self.bytes = new;
        self.tree = tree;
        Ok(())
    }
}

// The most bytes of a document.
const LONGEST: usize = 16_777_216;

// Reads bytes that spell a document but for the limits on depth and nodes.
fn read_new<L>(alloc: Global, bytes: &[u8], steps: &mut Steps<L>) -> Result<Tree, GraftFault>
    requires short { length bytes.now ≤ longest }
    requires whole { (fault bytes.now ≡ None) ⊎ IsPassed (fault bytes.now) }
    ensures ok { IfOk result (λ tree. IsShownOf tree bytes.now) }
    ensures large { IsErrOf result GraftFault.TooLarge → IsPassed (fault bytes.now) }
    ensures steps { OnOk result (steps.new ≡ counted steps.old (length bytes.now)) }
{
    match Tree::read(alloc, bytes, steps) {
        Ok(tree) => Ok(tree),
        Err(DocFault::OutOfMemory) => Err(GraftFault::OutOfMemory),
        Err(DocFault::Depth { .. }) => Err(GraftFault::TooLarge),
        Err(DocFault::Nodes { .. }) => Err(GraftFault::TooLarge),
        Err(_) => unreachable!(),
    }
}
