// The words of the command line.
ghost use Rattle.std.specs.Prelude.{◌≡◌, List, map, string_bytes, IfOk, MatchOption, MatchResult};
ghost use Rattle.word_patterns.specs.Grammar.{IsFaultyWord};
ghost use Rattle.command_words.specs.Asked.{IsSound, asked_by, asked_of, form_of, form_asked, goes_by, if_any, option_now, purpose_named};
ghost use Rattle.command_words.specs.Words.{patterns, IsCommand, IsWordFault};

use crate::attaching::{ATTACH_WORDS, Attachment, attachment_by};
use crate::faults::WordsFault;
use crate::parts::{DOCUMENT, EXTERNALS};
use crate::preparing::{PREPARE_WORDS, Preparation, preparation_by};
use crate::validating::{VALIDATE_WORDS, Validation, validation_by};
use asked_octets::Purpose;
use std::alloc::Global;
use word_patterns::{Part, TextForm, WordForm, faulty_word, text_behind, texts_behind};
use xa_io::OutOfMemory;

/// How a canonical form is named.
#[derive(Clone, Copy, Debug)]
pub struct Method<'a> {
    /// Whether it is the inclusive form.
    pub inclusive: bool,
    /// Whether comments are written.
    pub comments: bool,
    /// The prefixes that an exclusive form treats as the inclusive one does, between commas.
    pub prefixes: &'a str,
}

/// A command, with the names of its files.
#[derive(Debug, Drop)]
pub enum Command<'a> {
    /// Write the canonical form of a document, or of the element with an identifier.
    Canon {
        document: &'a str,
        method: Method<'a>,
        id: Option<&'a str>,
    },
    /// Write the octets over which the next value or time-stamp of a document's signature is to be made. The external files are handed in
    /// under their names.
    Octets {
        document: &'a str,
        purpose: Purpose,
        externals: Vec<&'a str>,
    },
    /// Write a document with an unsigned signature.
    Prepare(Preparation<'a>),
    /// Write a document with items attached.
    Attach(Attachment<'a>),
    /// Write the report on the signature of a document.
    Validate(Validation<'a>),
}

const CANON: Part<'static> = Part {
    forms: &[WordForm::Plain("canon")],
    least: 1,
    most: 1,
};

const EXCLUSIVE: Part<'static> = Part {
    forms: &[WordForm::Plain("form=exclusive")],
    least: 0,
    most: 1,
};

const INCLUSIVE: Part<'static> = Part {
    forms: &[WordForm::Plain("form=inclusive")],
    least: 1,
    most: 1,
};

const COMMENTS: Part<'static> = Part {
    forms: &[
        WordForm::Plain("comments=no"),
        WordForm::Plain("comments=yes"),
    ],
    least: 0,
    most: 1,
};

const PREFIXES: Part<'static> = Part {
    forms: &[WordForm::Keyed("prefixes=", TextForm::Prefixes)],
    least: 0,
    most: 1,
};

const ID: Part<'static> = Part {
    forms: &[WordForm::Keyed("id=", TextForm::Text)],
    least: 0,
    most: 1,
};

const OCTETS: Part<'static> = Part {
    forms: &[WordForm::Plain("octets")],
    least: 1,
    most: 1,
};

const PURPOSE: Part<'static> = Part {
    forms: &[
        WordForm::Plain("for=signature"),
        WordForm::Plain("for=stamp"),
        WordForm::Plain("for=archive"),
    ],
    least: 1,
    most: 1,
};

const EXCLUSIVE_WORDS: &[Part<'static>] = &[CANON, DOCUMENT, EXCLUSIVE, COMMENTS, PREFIXES, ID];

const INCLUSIVE_WORDS: &[Part<'static>] = &[CANON, DOCUMENT, INCLUSIVE, COMMENTS, ID];

const OCTETS_WORDS: &[Part<'static>] = &[OCTETS, DOCUMENT, PURPOSE, EXTERNALS];

// The number of the faulty word, if there is one.
fn faulty(alloc: Global, words: &[String]) -> Result<Option<u32>, OutOfMemory>
    ensures { IfOk result (λ number. MatchOption number (IsCommand (map string_bytes words.now)) (λ at. IsFaultyWord patterns (map string_bytes words.now) at)) }
{
    faulty_word(
        alloc,
        &[
            EXCLUSIVE_WORDS,
            INCLUSIVE_WORDS,
            OCTETS_WORDS,
            PREPARE_WORDS,
            ATTACH_WORDS,
            VALIDATE_WORDS,
        ],
        words,
    )
}

// How the words name a canonical form.
fn method_of<'a>(words: &'a [String]) -> Method<'a>
    ensures { form_of result ≡ form_asked (map string_bytes words.now) }
{
    Method {
        inclusive: text_behind("form=", words).as_bytes() == "inclusive".as_bytes(),
        comments: text_behind("comments=", words).as_bytes() == "yes".as_bytes(),
        prefixes: text_behind("prefixes=", words),
    }
}

// A text, where there is one.
fn if_any<'a>(text: &'a str) -> Option<&'a str>
    ensures { option_now result ≡ if_any text.now }
{
    if text.is_empty() { None } else { Some(text) }
}

// Whether the words are those of the command with a name.
fn goes_by(name: &str, words: &[String]) -> bool
    ensures { result ≡ goes_by name.now (map string_bytes words.now) }
{
    match words {
        [word, ..] => word.as_str().as_bytes() == name.as_bytes(),
        [] => false,
    }
}

// What octets a word asks for.
fn purpose_named(word: &str) -> Purpose
    ensures { result ≡ purpose_named word.now }
{
    if word.as_bytes() == "stamp".as_bytes() {
        Purpose::SignatureStamp
    } else if word.as_bytes() == "archive".as_bytes() {
        Purpose::ArchiveStamp
    } else {
        Purpose::Value
    }
}

// What the words of a command ask.
fn command_of<'a>(alloc: Global, words: &'a [String]) -> Result<Command<'a>, OutOfMemory>
    ensures { IfOk result (λ command. asked_by (map string_bytes words.now) ≡ asked_of command) }
{
    let document = text_behind("doc=", words);
    if goes_by("octets", words) {
        return Ok(Command::Octets {
            document,
            purpose: purpose_named(text_behind("for=", words)),
            externals: texts_behind(alloc, "ext=", words)?,
        });
    }
    if goes_by("prepare", words) {
        return Ok(Command::Prepare(preparation_by(alloc, words)?));
    }
    if goes_by("attach", words) {
        return Ok(Command::Attach(attachment_by(alloc, words)?));
    }
    if goes_by("validate", words) {
        return Ok(Command::Validate(validation_by(alloc, words)?));
    }
    Ok(Command::Canon {
        document,
        method: method_of(words),
        id: if_any(text_behind("id=", words)),
    })
}

/// The command that the words are; else the first word, from 1, with which no command goes on.
pub fn read_words<'a>(alloc: Global, words: &'a [String]) -> Result<Command<'a>, WordsFault>
    ensures { MatchResult result
        (λ command. IsCommand (map string_bytes words.now) × (asked_by (map string_bytes words.now) ≡ asked_of command) × IsSound (asked_of command))
        (IsWordFault (map string_bytes words.now)) }
{
    match faulty(alloc, words)? {
        Some(index) => Err(WordsFault::Unfit { index }),
        None => Ok(command_of(alloc, words)?),
    }
}
