//! A scanner that keeps no text.

ghost use Rattle.std.specs.Prelude.{◌≡◌, ℕ, List};
ghost use Rattle.std.specs.Str.{chars};
ghost use Rattle.signature_model.specs.Spots.{without_white};
ghost use Rattle.signature_model.specs.Base64.{is_strict as is_strict_text};
ghost use Rattle.base64_texts.specs.Scans.{scan, scan_on, scanned, nothing_scanned, fault_place};

use crate::stages::Stage;
use crate::symbols::{is_white, octet_for};

/// Tells whether a text that comes in pieces is strict base64 where white space is skipped (RFC 4648, section 4), and where it stops to
/// be that. It takes no memory.
#[derive(Clone, Copy)]
pub struct Scanner {
    stage: Stage,
    count: usize,
}

impl Scanner {
    /// Before any character.
    pub fn new() -> Scanner
        ensures { result ≡ nothing_scanned }
    {
        Scanner {
            stage: Stage::Start,
            count: 0,
        }
    }

    /// Takes the characters of a text.
    pub fn push(&mut self, text: &str)
        ensures { self.new ≡ scan_on self.old (chars text.now) }
    {
        self.push_octets(text.as_bytes());
    }

    /// Takes one character.
    pub fn push_char(&mut self, c: char)
        ensures { self.new ≡ scan self.old c }
    {
        *self = self.after(octet_for(c));
    }

    /// Takes octets, each as the character of its number.
    pub fn push_octets(&mut self, octets: &[u8])
        ensures { self.new ≡ scan_on self.old octets.now }
    {
        for octet in octets {
            *self = self.after(*octet);
        }
    }

    fn after(self, octet: u8) -> Scanner
        ensures { result ≡ scan self octet }
    {
        if is_white(octet) {
            return self;
        }
        let stage = self.stage.after(octet);
        let count = if stage.is_open() {
            self.count.saturating_add(1)
        } else {
            self.count
        };
        Scanner { stage, count }
    }

    /// Whether the text is strict base64.
    pub fn is_strict(&self) -> bool
        ensures { (text : List ℕ) → self.now ≡ scanned text → result ≡ is_strict_text (without_white text) }
    {
        self.stage.is_whole()
    }

    /// Where the text stops to be strict base64, unless it is that: the length, in characters without white space, of the longest prefix
    /// with which some strict base64 begins. The greatest `usize` stands for each place from there on.
    pub fn fault(&self) -> Option<usize>
        ensures { (text : List ℕ) → self.now ≡ scanned text → result ≡ fault_place text }
    {
        if self.is_strict() {
            return None;
        }
        Some(self.count)
    }
}
