//! The files that commands want.

ghost use Rattle.std.specs.Prelude.{◌≡◌, ◌∷◌, [], map, IfOk};
ghost use Rattle.whole_files.specs.Wants.{want_of};
ghost use Rattle.word_patterns.specs.Grammar.{text_now};
ghost use Rattle.command_words.specs.Asked.{asked_of};
ghost use Rattle.command_words.specs.Files.{wants_of};
ghost use Rattle.command_words.specs.Wanting.{document_want, external_want};

use crate::attaching::files_to_attach;
use crate::preparing::files_to_prepare;
use crate::validating::files_to_validate;
use crate::wants::{want, want_externals};
use crate::words::Command;
use std::alloc::Global;
use whole_files::{Role, Wanted};
use xa_io::OutOfMemory;

// The document alone.
fn document_alone<'a>(alloc: Global, document: &'a str) -> Result<Vec<Wanted<'a>>, OutOfMemory>
    ensures { IfOk result (λ wanted. map want_of wanted.items ≡ document_want document.now ∷ []) }
{
    let mut wanted = Vec::new(alloc);
    want(&mut wanted, Role::Document, document)?;
    Ok(wanted)
}

// The document, and the files that are handed in.
fn document_and_externals<'a>(
    alloc: Global,
    document: &'a str,
    externals: &[&'a str],
) -> Result<Vec<Wanted<'a>>, OutOfMemory>
    ensures { IfOk result (λ wanted. map want_of wanted.items ≡ document_want document.now ∷ map external_want (map text_now externals.now)) }
{
    let mut wanted = Vec::new(alloc);
    want(&mut wanted, Role::Document, document)?;
    want_externals(&mut wanted, externals)?;
    Ok(wanted)
}

/// The files that a command wants, in the order of its words.
pub fn wanted_by<'a>(alloc: Global, command: &Command<'a>) -> Result<Vec<Wanted<'a>>, OutOfMemory>
    ensures { IfOk result (λ wanted. map want_of wanted.items ≡ wants_of (asked_of command.now)) }
{
    match command {
        Command::Canon { document, .. } => document_alone(alloc, *document),
        Command::Octets {
            document,
            externals,
            ..
        } => document_and_externals(alloc, *document, externals.as_slice()),
        Command::Prepare(preparation) => files_to_prepare(alloc, preparation),
        Command::Attach(attachment) => files_to_attach(alloc, attachment),
        Command::Validate(validation) => files_to_validate(alloc, validation),
    }
}
