//! The characters of a text that were taken, decoded block by block.

ghost use Rattle.std.specs.Prelude.{◌≡◌, ◌+◌, ◌*◌, ◌/◌, ◌%◌, ◌<◌, ◌≤◌, ◌≢◌, [], ◌∷◌, ◌++◌, length, take};
ghost use Rattle.std.specs.Prelude.{IsTrue, OnOk, OnErr, IfOk, IfSome};
ghost use Rattle.signature_model.specs.Base64.{strict};
ghost use Rattle.xa_io.specs.Bytes.{IsBytes};
ghost use Rattle.base64_texts.specs.declared.stages.Stage.TheVariants.{Start};
ghost use Rattle.base64_texts.specs.Stages.{after_all, is_open, is_whole};
ghost use Rattle.base64_texts.specs.Spelling.{spelled};
ghost use Rattle.base64_texts.specs.Blocks.{AppendsDecoded};

use base64::engine::general_purpose::STANDARD;
use std::alloc::Global;
use std::marker::Model;
use xa_io::{Octs, OutOfMemory};

// How many characters are decoded at once.
const BLOCK: usize = 1024;

// How many octets they spell at most.
const ROOM: usize = 768;

// The characters in front of the first fault, without white space: octets of whole groups, and what isn't decoded yet.
#[derive(Drop)]
pub(crate) struct Taken {
    octets: Octs,
    block: [u8; BLOCK],
    filled: usize,
}

impl Model for Taken {
    ghost use Rattle.std.specs.Prelude.{ℕ, List, ◌++◌, take};
    ghost use Rattle.base64_texts.specs.Spelling.{spelled};
    ghost use Rattle.base64_texts.specs.Blocks.{IsTaken};

    ghost Value = { List ℕ };

    ghost view = { λ t. spelled t.octets ++ take t.filled t.block };

    ghost invariant = { λ t. IsTaken t.octets t.block t.filled };
}

impl Taken {
    // None. It takes no memory.
    pub(crate) fn new(alloc: Global) -> Taken
        ensures { result ≡ [] }
    {
        Taken {
            octets: Octs::new(alloc),
            block: [0; BLOCK],
            filled: 0,
        }
    }

    // How many there are.
    pub(crate) fn len(&self) -> usize
        ensures { result ≡ length self.now }
    {
        self.octets.as_slice().len() / 3 * 4 + self.filled
    }

    // Takes one more. After `OutOfMemory` they are as before.
    pub(crate) fn push(&mut self, octet: u8) -> Result<(), OutOfMemory>
        requires { IsTrue (is_open (after_all Start (self.old ++ octet ∷ []))) }
        ensures ok { OnOk result (self.new ≡ self.old ++ octet ∷ []) }
        ensures err { OnErr result (self.new ≡ self.old) }
    {
        let place = make_room(&mut self.octets, &self.block, self.filled)?;
        self.block[place] = octet;
        self.filled = place + 1;
        Ok(())
    }

    // The octets that they spell.
    pub(crate) fn finish(self) -> Result<Octs, OutOfMemory>
        requires { IsTrue (is_whole (after_all Start self)) }
        ensures { IfOk result (λ octets. strict self ≡ Some octets) }
    {
        let Taken {
            mut octets,
            block,
            filled,
        } = self;
        append_decoded(&mut octets, &block[..filled])?;
        Ok(octets)
    }
}

// The place for one more character. A full block is decoded first.
fn make_room(octets: &mut Octs, block: &[u8], filled: usize) -> Result<usize, OutOfMemory>
    requires block { length block.now ≡ 1024 }
    requires within { filled ≤ 1024 }
    requires groups { length octets.old % 3 ≡ 0 }
    requires bytes { IsBytes octets.old }
    requires whole { filled ≡ 1024 → after_all Start block.now ≡ Start }
    ensures place { IfOk result (λ place. place < 1024) }
    ensures same { IfOk result (λ place. spelled octets.new ++ take place block.now ≡ spelled octets.old ++ take filled block.now) }
    ensures groups { OnOk result (length octets.new % 3 ≡ 0) }
    ensures bytes { OnOk result (IsBytes octets.new) }
    ensures err { OnErr result (octets.new ≡ octets.old) }
{
    if filled < BLOCK {
        return Ok(filled);
    }
    append_decoded(octets, block)?;
    Ok(0)
}

// Appends the octets that a text spells. After `OutOfMemory` they are as before.
fn append_decoded(octets: &mut Octs, text: &[u8]) -> Result<(), OutOfMemory>
    requires short { length text.now ≤ 1024 }
    requires whole { IsTrue (is_whole (after_all Start text.now)) }
    ensures ok { OnOk result (AppendsDecoded text.now octets.old octets.new) }
    ensures err { OnErr result (octets.new ≡ octets.old) }
{
    let mut room = [0; ROOM];
    match decode_into(text, &mut room) {
        Some(count) => octets.push_all(&room[..count]),
        None => unreachable!(),
    }
}

// How many octets a text spells. They are written to the front of the room.
fn decode_into(text: &[u8], room: &mut [u8]) -> Option<usize>
    requires { (length text.now + 3) / 4 * 3 ≤ length room.old }
    ensures count { IfSome result (λ count. count ≤ length room.new) }
    ensures bytes { IfSome result (λ count. IsBytes (take count room.new)) }
    ensures octets { IfSome result (λ count. text.now ≡ spelled (take count room.new)) }
    ensures refused { IsTrue (is_whole (after_all Start text.now)) → result ≢ None }
{
    match STANDARD.decode_slice_unchecked(text, room) {
        Ok(count) => Some(count),
        Err(_) => None,
    }
}
