//! Bytes that are put into others at rising places.

ghost use Rattle.std.specs.Prelude.{◌≡◌, List, ℕ, ◌+◌, ◌-◌, ◌≤◌, ◌++◌, ◌∷◌, [], length, codes, IfOk, OnOk, OnErr};
ghost use Rattle.document_model.specs.Insertion.{Extends};
ghost use Rattle.insertions.specs.declared.pieces.Placed.{Placed};
ghost use Rattle.insertions.specs.Placed.{RiseFrom, RiseFrom-prop, last_place, with_all};

use std::alloc::Global;
use std::marker::Model;
use xa_io::{Octs, OutOfMemory};

// Bytes with the place that they are put in at.
#[derive(Drop)]
pub(crate) struct Placed {
    pub(crate) at: u32,
    pub(crate) bytes: Octs,
}

/// Pieces, each a list of bytes, with the places that they are put in at, which rise.
#[derive(Drop)]
pub struct Insertions {
    alloc: Global,
    list: Vec<Placed>,
    ghost rise: { RiseFrom 0 list.items } by { RiseFrom-prop 0 list.items },
}

impl Model for Insertions {
    ghost Value = { List Placed };

    ghost view = { λ pieces. pieces.list.items };
}

impl Insertions {
    /// No pieces. It takes no memory.
    pub fn new(alloc: Global) -> Insertions
        ensures { result ≡ [] }
    {
        Insertions {
            alloc,
            list: Vec::new(alloc),
        }
    }

    /// Puts a piece in at a place, which is counted in the bytes without the pieces and isn't below the last one: behind the pieces that
    /// are there. After `OutOfMemory` the pieces are as before.
    pub fn add(&mut self, at: u32, piece: &[u8]) -> Result<(), OutOfMemory>
        requires { last_place self.old ≤ at }
        ensures ok { OnOk result (self.new ≡ self.old ++ record { at = at; bytes = piece.now } ∷ []) }
        ensures err { OnErr result (self.new ≡ self.old) }
    {
        let mut bytes = Octs::new(self.alloc);
        bytes.push_all(piece)?;
        self.push(Placed { at, bytes })
    }

    // Puts in one piece more.
    fn push(&mut self, one: Placed) -> Result<(), OutOfMemory>
        requires { last_place self.old ≤ one.at }
        ensures ok { OnOk result (self.new ≡ self.old ++ one ∷ []) }
        ensures err { OnErr result (self.new ≡ self.old) }
    {
        match self.list.push(one) {
            Ok(()) => Ok(()),
            Err(_) => Err(OutOfMemory),
        }
    }

    // Opens an empty tag that ends at a place: `>`, content and `<` in front of its `/`, and its name behind that.
    pub(crate) fn open(&mut self, end: u32, content: &[u8], name: &[u8]) -> Result<(), OutOfMemory>
        requires end { 2 ≤ end }
        requires behind { last_place self.old ≤ end - 2 }
        ensures ok { OnOk result (self.new ≡ self.old ++ record { at = end - 2; bytes = codes ">" ++ (content.now ++ codes "<") } ∷ record { at = end - 1; bytes = name.now } ∷ []) }
        ensures err { OnErr result (self.new ≡ self.old) }
    {
        let count = self.list.len();
        let bytes = between_tags(self.alloc, content)?;
        self.push(Placed { at: end - 2, bytes })?;
        let result = self.add(end - 1, name);
        if result.is_err() {
            self.list.truncate(count);
        }
        result
    }
}

// The end of a start tag, content, and the beginning of an end tag.
fn between_tags(alloc: Global, content: &[u8]) -> Result<Octs, OutOfMemory>
    ensures { IfOk result (λ new. new ≡ codes ">" ++ (content.now ++ codes "<")) }
{
    let mut new = Octs::new(alloc);
    new.push_all(b">")?;
    new.push_all(content)?;
    new.push_all(b"<")?;
    Ok(new)
}

/// The bytes with the pieces put in at their places; pieces at one place stand in the order in which they were added. No byte of theirs is
/// changed or moved against another one.
pub fn apply(alloc: Global, bytes: &[u8], pieces: &Insertions) -> Result<Octs, OutOfMemory>
    requires { last_place pieces.now ≤ length bytes.now }
    ensures all { IfOk result (λ new. new ≡ with_all pieces.now bytes.now) }
    ensures adds { IfOk result (λ new. Extends bytes.now new) }
{
    let mut new = Octs::new(alloc);
    let mut from = 0;
    for piece in pieces.list.iter() {
        let at = piece.at as usize;
        new.push_all(&bytes[from..at])?;
        new.push_all(piece.bytes.as_slice())?;
        from = at;
    }
    new.push_all(&bytes[from..])?;
    Ok(new)
}
