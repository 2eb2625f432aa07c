//! A decoder into which a text is pushed in pieces.

ghost use Rattle.std.specs.Prelude.{◌≡◌, ℕ, IsTrue, IsOk, IsErr, List, [], ◌∷◌, OnOk, OnErr};
ghost use Rattle.std.specs.Str.{chars};
ghost use Rattle.base64_texts.specs.Readings.{read, read_on, reading, nothing_read, has_fault};
ghost use Rattle.base64_texts.specs.Answers.{Decodes};

use crate::faults::Base64Fault;
use crate::stages::Stage;
use crate::symbols::{is_white, octet_for};
use crate::taken::Taken;
use std::alloc::Global;
use std::marker::Model;
use xa_io::{Octs, OutOfMemory};

/// Decodes a text that comes in pieces: white space is skipped, and the rest is strict base64 (RFC 4648, section 4, with the padding
/// required and the bits behind the last octet zero).
///
/// It holds the octets and at most 1,024 characters. Its value is the characters in front of the first fault, without white space, and
/// how far they have come. Behind a fault it takes no memory, and nothing changes the answer. Once memory could not be had, it is spent:
/// each further push and the end answer `OutOfMemory`.
#[derive(Drop)]
pub struct Decoder {
    stage: Stage,
    taken: Taken,
    spent: bool,
}

impl Model for Decoder {
    ghost use Rattle.std.specs.Prelude.{◌≡◌, true};
    ghost use Rattle.base64_texts.specs.declared.stages.Stage.TheVariants.{Start};
    ghost use Rattle.base64_texts.specs.Stages.{after_all, is_open};
    ghost use Rattle.base64_texts.specs.Readings.{Reading};

    ghost Value = { Reading };

    ghost view = { λ d. record { stage = d.stage; front = d.taken; spent = d.spent } };

    ghost invariant = { λ d. is_open d.stage ≡ true → after_all Start d.taken ≡ d.stage };
}

impl Decoder {
    /// Before any character. It takes no memory.
    pub fn new(alloc: Global) -> Decoder
        ensures { result ≡ nothing_read }
    {
        Decoder {
            stage: Stage::Start,
            taken: Taken::new(alloc),
            spent: false,
        }
    }

    /// Takes the characters of a text. After `OutOfMemory` it is spent.
    pub fn push(&mut self, text: &str) -> Result<(), OutOfMemory>
        ensures ok { OnOk result (self.new ≡ read_on self.old (chars text.now)) }
        ensures settled { IsTrue (has_fault self.old) → IsOk result × (self.new ≡ self.old) }
        ensures err { OnErr result (IsTrue self.new.spent) }
        ensures spent { IsTrue self.old.spent → IsErr result × (self.new ≡ self.old) }
    {
        self.push_octets(text.as_bytes())
    }

    /// Takes one character. After `OutOfMemory` it is spent.
    pub fn push_char(&mut self, c: char) -> Result<(), OutOfMemory>
        ensures ok { OnOk result (self.new ≡ read self.old c) }
        ensures settled { IsTrue (has_fault self.old) → IsOk result × (self.new ≡ self.old) }
        ensures err { OnErr result (IsTrue self.new.spent) }
        ensures spent { IsTrue self.old.spent → IsErr result × (self.new ≡ self.old) }
    {
        self.push_octet(octet_for(c))
    }

    /// Takes octets, each as the character of its number. After `OutOfMemory` it is spent.
    pub fn push_octets(&mut self, octets: &[u8]) -> Result<(), OutOfMemory>
        ensures ok { OnOk result (self.new ≡ read_on self.old octets.now) }
        ensures settled { IsTrue (has_fault self.old) → IsOk result × (self.new ≡ self.old) }
        ensures err { OnErr result (IsTrue self.new.spent) }
        ensures spent { IsTrue self.old.spent → IsErr result × (self.new ≡ self.old) }
    {
        if self.spent {
            return Err(OutOfMemory);
        }
        for octet in octets {
            self.push_octet(*octet)?;
        }
        Ok(())
    }

    fn push_octet(&mut self, octet: u8) -> Result<(), OutOfMemory>
        ensures ok { OnOk result (self.new ≡ read self.old octet) }
        ensures settled { IsTrue (has_fault self.old) → IsOk result × (self.new ≡ self.old) }
        ensures err { OnErr result (IsTrue self.new.spent) }
        ensures spent { IsTrue self.old.spent → IsErr result × (self.new ≡ self.old) }
    {
        if self.spent {
            return Err(OutOfMemory);
        }
        if is_white(octet) {
            return Ok(());
        }
        let next = self.stage.after(octet);
        if !next.is_open() {
            self.stage = next;
            return Ok(());
        }
        let Ok(()) = self.taken.push(octet) else {
            self.spent = true;
            return Err(OutOfMemory);
        };
        self.stage = next;
        Ok(())
    }

    /// The octets that the text spells. Err: the text isn't strict base64, or memory could not be had, now or before.
    pub fn finish(self) -> Result<Octs, Base64Fault>
        ensures decodes { (text : List ℕ) → self ≡ reading text → Decodes text result }
        ensures spent { IsTrue self.spent → result ≡ Err Base64Fault.OutOfMemory }
    {
        if self.spent {
            return Err(Base64Fault::OutOfMemory);
        }
        if !self.stage.is_whole() {
            return Err(Base64Fault::NotBase64 {
                at: self.taken.len(),
            });
        }
        match self.taken.finish() {
            Ok(octets) => Ok(octets),
            Err(OutOfMemory) => Err(Base64Fault::OutOfMemory),
        }
    }
}

/// The octets that a text spells, whose characters are given by their numbers. Err: it isn't strict base64 where white space is skipped
/// (RFC 4648, section 4), or memory could not be had.
pub fn decode(alloc: Global, text: &[u8]) -> Result<Octs, Base64Fault>
    ensures { Decodes text.now result }
{
    let mut decoder = Decoder::new(alloc);
    match decoder.push_octets(text) {
        Ok(()) => decoder.finish(),
        Err(OutOfMemory) => Err(Base64Fault::OutOfMemory),
    }
}
