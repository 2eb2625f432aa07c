// What `prepare` is asked, and the files that it wants.
ghost use Rattle.std.specs.Prelude.{◌≡◌, ◌++◌, ◌∷◌, [], ℕ, List, map, filter, string_bytes, IfOk, OnOk};
ghost use Rattle.whole_files.specs.Wants.{want_of};
ghost use Rattle.word_patterns.specs.Grammar.{Fits, text_now};
ghost use Rattle.command_words.specs.Preparing.{IsPreparable, digest_named, names_file, prepare_wants, prepares_by, prepares_of};
ghost use Rattle.command_words.specs.Wanting.{certificate_want, external_want};
ghost use Rattle.command_words.specs.Words.{prepare_words};

use crate::parts::{DOCUMENT, POLICY};
use crate::wants::want;
use algorithms::DigestKind;
use std::alloc::Global;
use whole_files::{Role, Wanted};
use word_patterns::{Part, TextForm, WordForm, text_behind, texts_behind};
use xa_io::OutOfMemory;
use xml_items::classes::first;

/// An unsigned signature that is to be made: the names of its files, and what it says.
#[derive(Debug, Drop)]
pub struct Preparation<'a> {
    /// The document that gets the signature.
    pub document: &'a str,
    /// The policy that lists its method.
    pub policy: &'a str,
    /// The certificates of its `KeyInfo`, that of the signer first.
    pub certificates: Vec<&'a str>,
    /// The signing time, `YYYY-MM-DDThh:mm:ssZ`.
    pub time: &'a str,
    /// The identifier of the signature.
    pub id: &'a str,
    /// The URI of its `SignatureMethod`.
    pub method: &'a str,
    /// The kind of its digests.
    pub digest: DigestKind,
    /// The URIs of its References: the empty one is the document, `#` and an identifier an element, and any other the file of that name.
    pub references: Vec<&'a str>,
}

const PREPARE: Part<'static> = Part {
    forms: &[WordForm::Plain("prepare")],
    least: 1,
    most: 1,
};

const CERTIFICATES: Part<'static> = Part {
    forms: &[WordForm::Keyed("cert=", TextForm::FileName)],
    least: 1,
    most: 8,
};

const TIME: Part<'static> = Part {
    forms: &[WordForm::Keyed("time=", TextForm::Time)],
    least: 1,
    most: 1,
};

const SIGNATURE_ID: Part<'static> = Part {
    forms: &[WordForm::Keyed("id=", TextForm::SignatureId)],
    least: 1,
    most: 1,
};

const METHOD: Part<'static> = Part {
    forms: &[WordForm::Keyed("method=", TextForm::SomeUri)],
    least: 1,
    most: 1,
};

const DIGEST: Part<'static> = Part {
    forms: &[
        WordForm::Plain("digest=sha256"),
        WordForm::Plain("digest=sha384"),
        WordForm::Plain("digest=sha512"),
    ],
    least: 1,
    most: 1,
};

const REFERENCES: Part<'static> = Part {
    forms: &[WordForm::Keyed("ref=", TextForm::Uri)],
    least: 1,
    most: 15,
};

pub(crate) const PREPARE_WORDS: &[Part<'static>] = &[
    PREPARE,
    DOCUMENT,
    POLICY,
    CERTIFICATES,
    TIME,
    SIGNATURE_ID,
    METHOD,
    DIGEST,
    REFERENCES,
];

// The kind of digests that a word names.
fn digest_named(word: &str) -> DigestKind
    ensures { result ≡ digest_named word.now }
{
    if word.as_bytes() == "sha384".as_bytes() {
        DigestKind::Sha384
    } else if word.as_bytes() == "sha512".as_bytes() {
        DigestKind::Sha512
    } else {
        DigestKind::Sha256
    }
}

/// The law that words which fit ask for one to eight certificates and one to fifteen References, and that each text is of its form.
pub fn preparations_are_sound()
    ensures { (words : List (List ℕ)) → Fits prepare_words words → IsPreparable (prepares_by words) }
{}

/// What the words of `prepare` ask.
pub fn preparation_by<'a>(
    alloc: Global,
    words: &'a [String],
) -> Result<Preparation<'a>, OutOfMemory>
    ensures { IfOk result (λ asked. prepares_of asked ≡ prepares_by (map string_bytes words.now)) }
{
    Ok(Preparation {
        document: text_behind("doc=", words),
        policy: text_behind("policy=", words),
        certificates: texts_behind(alloc, "cert=", words)?,
        time: text_behind("time=", words),
        id: text_behind("id=", words),
        method: text_behind("method=", words),
        digest: digest_named(text_behind("digest=", words)),
        references: texts_behind(alloc, "ref=", words)?,
    })
}

// Whether a URI names a file that is handed in.
fn names_file(uri: &str) -> bool
    ensures { result ≡ names_file uri.now }
{
    match first(uri) {
        Some((c, _)) => c != '#',
        None => false,
    }
}

fn want_certificates<'a>(wanted: &mut Vec<Wanted<'a>>, names: &[&'a str]) -> Result<(), OutOfMemory>
    ensures { OnOk result (map want_of wanted.new.items ≡ map want_of wanted.old.items ++ map certificate_want (map text_now names.now)) }
{
    for name in names {
        want(wanted, Role::Certificate, *name)?;
    }
    Ok(())
}

// The file that a URI names, where it names one.
fn want_if_file<'a>(wanted: &mut Vec<Wanted<'a>>, uri: &'a str) -> Result<(), OutOfMemory>
    ensures { OnOk result (map want_of wanted.new.items ≡ map want_of wanted.old.items ++ map external_want (filter names_file (uri.now ∷ []))) }
{
    if !names_file(uri) {
        return Ok(());
    }
    want(wanted, Role::External, uri)
}

// Those of the URIs that name files.
fn want_named<'a>(wanted: &mut Vec<Wanted<'a>>, uris: &[&'a str]) -> Result<(), OutOfMemory>
    ensures { OnOk result (map want_of wanted.new.items ≡ map want_of wanted.old.items ++ map external_want (filter names_file (map text_now uris.now))) }
{
    for uri in uris {
        want_if_file(wanted, *uri)?;
    }
    Ok(())
}

/// The files that are wanted, in the order of the words.
pub fn files_to_prepare<'a>(
    alloc: Global,
    asked: &Preparation<'a>,
) -> Result<Vec<Wanted<'a>>, OutOfMemory>
    ensures { IfOk result (λ wanted. map want_of wanted.items ≡ prepare_wants (prepares_of asked.now)) }
{
    let mut wanted = Vec::new(alloc);
    want(&mut wanted, Role::Document, asked.document)?;
    want(&mut wanted, Role::Policy, asked.policy)?;
    want_certificates(&mut wanted, asked.certificates.as_slice())?;
    want_named(&mut wanted, asked.references.as_slice())?;
    Ok(wanted)
}
