// What `validate` is asked, and the files that it wants.
ghost use Rattle.std.specs.Prelude.{◌≡◌, ◌++◌, ℕ, List, map, string_bytes, IfOk, OnOk};
ghost use Rattle.whole_files.specs.Wants.{want_of};
ghost use Rattle.word_patterns.specs.Grammar.{Fits, text_now};
ghost use Rattle.command_words.specs.Validating.{IsValidatable, validate_wants, validates_by, validates_of};
ghost use Rattle.command_words.specs.Wanting.{more_want};
ghost use Rattle.command_words.specs.Words.{validate_words};

use crate::attaching::seconds_of;
use crate::parts::{DOCUMENT, EXTERNALS, MOMENT, POLICY};
use crate::wants::{want, want_externals};
use std::alloc::Global;
use whole_files::{Role, Wanted};
use word_patterns::{Part, TextForm, WordForm, text_behind, texts_behind};
use xa_io::OutOfMemory;

/// A document whose signature is to be judged: the names of its files.
#[derive(Debug, Drop)]
pub struct Validation<'a> {
    /// The document.
    pub document: &'a str,
    /// The policy that it is judged by.
    pub policy: &'a str,
    /// The moment at which it is judged, in seconds since 1970.
    pub at: i64,
    /// The files that are handed in for References.
    pub externals: Vec<&'a str>,
    /// The files of further certificates and revocation lists.
    pub more: Vec<&'a str>,
}

const VALIDATE: Part<'static> = Part {
    forms: &[WordForm::Plain("validate")],
    least: 1,
    most: 1,
};

const MORE: Part<'static> = Part {
    forms: &[WordForm::Keyed("more=", TextForm::FileName)],
    least: 0,
    most: 16,
};

pub(crate) const VALIDATE_WORDS: &[Part<'static>] = &[
    VALIDATE, DOCUMENT, POLICY, MOMENT, EXTERNALS, MORE,
];

/// The law that of words which fit the moment is the time that their word names.
pub fn validations_are_sound()
    ensures { (words : List (List ℕ)) → Fits validate_words words → IsValidatable (validates_by words) }
{}

/// What the words of `validate` ask.
pub fn validation_by<'a>(alloc: Global, words: &'a [String]) -> Result<Validation<'a>, OutOfMemory>
    ensures { IfOk result (λ asked. validates_of asked ≡ validates_by (map string_bytes words.now)) }
{
    Ok(Validation {
        document: text_behind("doc=", words),
        policy: text_behind("policy=", words),
        at: seconds_of(text_behind("at=", words)),
        externals: texts_behind(alloc, "ext=", words)?,
        more: texts_behind(alloc, "more=", words)?,
    })
}

fn want_more<'a>(wanted: &mut Vec<Wanted<'a>>, names: &[&'a str]) -> Result<(), OutOfMemory>
    ensures { OnOk result (map want_of wanted.new.items ≡ map want_of wanted.old.items ++ map more_want (map text_now names.now)) }
{
    for name in names {
        want(wanted, Role::More, *name)?;
    }
    Ok(())
}

/// The files that are wanted, in the order of the words.
pub fn files_to_validate<'a>(
    alloc: Global,
    asked: &Validation<'a>,
) -> Result<Vec<Wanted<'a>>, OutOfMemory>
    ensures { IfOk result (λ wanted. map want_of wanted.items ≡ validate_wants (validates_of asked.now)) }
{
    let mut wanted = Vec::new(alloc);
    want(&mut wanted, Role::Document, asked.document)?;
    want(&mut wanted, Role::Policy, asked.policy)?;
    want_externals(&mut wanted, asked.externals.as_slice())?;
    want_more(&mut wanted, asked.more.as_slice())?;
    Ok(wanted)
}
