//! Indices from texts to nodes.

ghost use Rattle.std.specs.Prelude.{◌≡◌, ℕ, List, OnOk, OnErr, string_bytes};
ghost use Rattle.node_index.specs.Indices.{sighted, Adds};

use crate::sightings::Sightings;
use doc_spans::NodeId;
use std::alloc::Global;
use std::collections::BTreeMap;
use xa_io::OutOfMemory;

/// The nodes that were added under texts.
///
/// Texts are the same by their bytes. A look-up compares a text with at most so many others as the number of texts has binary digits,
/// whichever texts they are: an ordered map has no keys that whoever writes a document could choose to make it slow.
#[derive(Drop)]
pub struct NodeIndex {
    held: BTreeMap<String, Sightings>,
}

impl NodeIndex {
    /// An index without nodes.
    pub fn new(alloc: Global) -> NodeIndex
        ensures { (text : List ℕ) → sighted result text ≡ Sightings.Absent }
    {
        NodeIndex {
            held: BTreeMap::new(alloc),
        }
    }

    /// Adds a node under a text, behind those that were added there before.
    ///
    /// After `OutOfMemory` the index is as before.
    pub fn add(&mut self, text: String, node: NodeId) -> Result<(), OutOfMemory>
        ensures ok { OnOk result (Adds (string_bytes text) node self.old self.new) }
        ensures err { OnErr result ((other : List ℕ) → sighted self.new other ≡ sighted self.old other) }
    {
        let seen = self.find(text.as_str()).with(node);
        let Ok(_) = self.held.insert(text, seen) else {
            return Err(OutOfMemory);
        };
        Ok(())
    }

    /// The nodes under a text. It takes no memory.
    pub fn find(&self, text: &str) -> Sightings
        ensures { result ≡ sighted self.now text.now }
    {
        match self.held.get(text) {
            Some(seen) => *seen,
            None => Sightings::Absent,
        }
    }
}
