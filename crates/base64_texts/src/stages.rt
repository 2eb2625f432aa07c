//! How far a text without white space has come in base64.

ghost use Rattle.std.specs.Prelude.{◌≡◌};
ghost use Rattle.base64_texts.specs.Stages.{after, after_symbol, after_other, is_open, is_whole};

use crate::symbols::symbol_value;

// Where a text ends in a group of four symbols. Padding may follow where the last symbol's bits that belong to no octet are zero.
#[derive(Clone, Copy)]
pub(crate) enum Stage {
    // Behind whole groups of symbols.
    Start,
    // Behind one symbol.
    One,
    // Behind two symbols.
    Two { may_end: bool },
    // Behind three symbols.
    Three { may_end: bool },
    // Behind two symbols and one padding character.
    Padding,
    // Behind all of the padding.
    End,
    // Behind a character with which no base64 goes on.
    Refused,
}

impl Stage {
    // The stage behind one more character, which isn't white space.
    pub(crate) fn after(self, octet: u8) -> Stage
        ensures { result ≡ after self octet }
    {
        match symbol_value(octet) {
            Some(value) => self.after_symbol(value),
            None => self.after_other(octet),
        }
    }

    fn after_symbol(self, value: u8) -> Stage
        ensures { result ≡ after_symbol self value }
    {
        match self {
            Stage::Start => Stage::One,
            Stage::One => Stage::Two {
                may_end: value % 16 == 0,
            },
            Stage::Two { .. } => Stage::Three {
                may_end: value % 4 == 0,
            },
            Stage::Three { .. } => Stage::Start,
            Stage::Padding | Stage::End | Stage::Refused => Stage::Refused,
        }
    }

    fn after_other(self, octet: u8) -> Stage
        ensures { result ≡ after_other self octet }
    {
        match self {
            Stage::Two { may_end: true } if octet == b'=' => Stage::Padding,
            Stage::Three { may_end: true } | Stage::Padding if octet == b'=' => Stage::End,
            _ => Stage::Refused,
        }
    }

    // Whether no character was refused.
    pub(crate) fn is_open(self) -> bool
        ensures { result ≡ is_open self }
    {
        !matches!(self, Stage::Refused)
    }

    // Whether the text may end here.
    pub(crate) fn is_whole(self) -> bool
        ensures { result ≡ is_whole self }
    {
        matches!(self, Stage::Start | Stage::End)
    }
}
