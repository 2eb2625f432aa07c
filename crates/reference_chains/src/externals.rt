//! Octets that are handed in for external References.

ghost use Rattle.std.specs.Prelude.{◌≡◌, ◌≤◌, ℕ, List, None, IsOk, IsSome, OnOk, OnErr, length};
ghost use Rattle.std.specs.Option.{option_copied};
ghost use Rattle.std.specs.Str.{chars};
ghost use Rattle.doc_spans.specs.Pieces.{characters_left};
ghost use Rattle.reference_chains.specs.HandedIn.{handed_in, one_more, look_up};

use doc_spans::Pieces;
use std::alloc::Global;
use xa_io::{Octs, OutOfMemory};

/// Octets that are handed in, by the URI of an external Reference (XML Signature 1.1, section 4.4.3.1). Of equal names the first counts.
#[derive(Drop)]
pub struct Externals {
    alloc: Global,
    files: Vec<File>,
}

// Octets with their name.
#[derive(Drop)]
pub(crate) struct File {
    pub(crate) name: String,
    pub(crate) octets: Octs,
}

impl Externals {
    /// Hands in nothing. It takes no memory.
    pub fn new(alloc: Global) -> Externals
        ensures { (name : List ℕ) → handed_in result name ≡ None }
    {
        Externals {
            alloc,
            files: Vec::new(alloc),
        }
    }

    #[tactic(auto, using(crate::proofs::Files::appended))]
    /// Hands in octets under a name, 33,554,432 at most. Where it has some already, they stay: the answer is Ok, all is as it was, and it
    /// takes no memory. After `OutOfMemory` the same is handed in as before.
    pub fn add(&mut self, name: &str, octets: Octs) -> Result<(), OutOfMemory>
        requires size { length octets ≤ 33554432 }
        ensures ok { OnOk result ((other : List ℕ) → handed_in self.new other ≡ one_more (handed_in self.old) (chars name.now) octets other) }
        ensures there { IsSome (handed_in self.old (chars name.now)) → IsOk result × (self.new ≡ self.old) }
        ensures err { OnErr result ((other : List ℕ) → handed_in self.new other ≡ handed_in self.old other) }
    {
        if self.get(name).is_some() {
            return Ok(());
        }
        let Ok(name) = String::from_str(self.alloc, name) else {
            return Err(OutOfMemory);
        };
        match self.files.push(File { name, octets }) {
            Ok(()) => Ok(()),
            Err(_) => Err(OutOfMemory),
        }
    }

    /// The octets of a name, where it has some.
    pub fn get(&self, name: &str) -> Option<&[u8]>
        ensures { option_copied result ≡ handed_in self.now (chars name.now) }
    {
        self.get_pieces(Pieces::of(name))
    }

    /// The octets of a name whose characters come in pieces, where it has some.
    pub fn get_pieces(&self, name: Pieces<'_>) -> Option<&[u8]>
        ensures { option_copied result ≡ handed_in self.now (characters_left name.entry) }
    {
        look(&self.files, name)
    }
}

// The octets of the first of some files with a name.
fn look<'a>(files: &'a Vec<File>, name: Pieces<'_>) -> Option<&'a [u8]>
    ensures { option_copied result ≡ look_up files.now.items (characters_left name.entry) }
{
    for file in files {
        if name.same(file.name.as_str()) {
            return Some(file.octets.as_slice());
        }
    }
    None
}
