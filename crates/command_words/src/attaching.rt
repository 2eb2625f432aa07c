// What `attach` is asked, and the files that it wants.
ghost use Rattle.std.specs.Prelude.{◌≡◌, ◌++◌, ℕ, List, map, string_bytes, IfOk, OnOk, unwrap_or, pos};
ghost use Rattle.utc_times.specs.TimeText.{time_of};
ghost use Rattle.whole_files.specs.Wants.{want_of};
ghost use Rattle.word_patterns.specs.Grammar.{Fits, text_now};
ghost use Rattle.word_patterns.specs.Keyed.{keyed_now};
ghost use Rattle.command_words.specs.Attaching.{IsAttachable, attach_wants, attaches_by, attaches_of, item_want};
ghost use Rattle.command_words.specs.Words.{attach_words};

use crate::parts::{DOCUMENT, EXTERNALS, MOMENT, POLICY};
use crate::wants::{want, want_externals};
use std::alloc::Global;
use utc_times::read_time;
use whole_files::{Role, Wanted};
use word_patterns::{Part, TextForm, WordForm, keyed_texts, text_behind, texts_behind};
use xa_io::OutOfMemory;

/// Items that are to be attached to a document: the names of their files.
#[derive(Debug, Drop)]
pub struct Attachment<'a> {
    /// The document that gets the items.
    pub document: &'a str,
    /// The policy that they are judged by.
    pub policy: &'a str,
    /// The moment at which they are judged, in seconds since 1970.
    pub at: i64,
    /// The items, in their order, and what each is.
    pub items: Vec<(Role, &'a str)>,
    /// The files that are handed in for References.
    pub externals: Vec<&'a str>,
}

const ATTACH: Part<'static> = Part {
    forms: &[WordForm::Plain("attach")],
    least: 1,
    most: 1,
};

const ITEMS: Part<'static> = Part {
    forms: &[
        WordForm::Keyed("value=", TextForm::FileName),
        WordForm::Keyed("stamp=", TextForm::FileName),
        WordForm::Keyed("data=", TextForm::FileName),
        WordForm::Keyed("archive=", TextForm::FileName),
    ],
    least: 1,
    most: 64,
};

pub(crate) const ATTACH_WORDS: &[Part<'static>] = &[
    ATTACH, DOCUMENT, POLICY, MOMENT, ITEMS, EXTERNALS,
];

const ITEM_KEYS: &[(&str, Role)] = &[
    ("value=", Role::Value),
    ("stamp=", Role::Stamp),
    ("data=", Role::Data),
    ("archive=", Role::Archive),
];

// The seconds since 1970 of a time; 0 where the text is no time.
pub(crate) fn seconds_of(text: &str) -> i64
    ensures { result ≡ unwrap_or (time_of text.now) (pos 0) }
{
    match read_time(text.as_bytes()) {
        Some(seconds) => seconds,
        None => 0,
    }
}

/// The law that words which fit ask for 64 items at most, and that the moment is the time that their word names.
pub fn attachments_are_sound()
    ensures { (words : List (List ℕ)) → Fits attach_words words → IsAttachable words (attaches_by words) }
{}

/// What the words of `attach` ask.
pub fn attachment_by<'a>(alloc: Global, words: &'a [String]) -> Result<Attachment<'a>, OutOfMemory>
    ensures { IfOk result (λ asked. attaches_of asked ≡ attaches_by (map string_bytes words.now)) }
{
    Ok(Attachment {
        document: text_behind("doc=", words),
        policy: text_behind("policy=", words),
        at: seconds_of(text_behind("at=", words)),
        items: keyed_texts(alloc, ITEM_KEYS, words)?,
        externals: texts_behind(alloc, "ext=", words)?,
    })
}

fn want_items<'a>(
    wanted: &mut Vec<Wanted<'a>>,
    items: &[(Role, &'a str)],
) -> Result<(), OutOfMemory>
    ensures { OnOk result (map want_of wanted.new.items ≡ map want_of wanted.old.items ++ map item_want (map keyed_now items.now)) }
{
    for item in items {
        want(wanted, item.0, item.1)?;
    }
    Ok(())
}

/// The files that are wanted, in the order of the words.
pub fn files_to_attach<'a>(
    alloc: Global,
    asked: &Attachment<'a>,
) -> Result<Vec<Wanted<'a>>, OutOfMemory>
    ensures { IfOk result (λ wanted. map want_of wanted.items ≡ attach_wants (attaches_of asked.now)) }
{
    let mut wanted = Vec::new(alloc);
    want(&mut wanted, Role::Document, asked.document)?;
    want(&mut wanted, Role::Policy, asked.policy)?;
    want_items(&mut wanted, asked.items.as_slice())?;
    want_externals(&mut wanted, asked.externals.as_slice())?;
    Ok(wanted)
}
