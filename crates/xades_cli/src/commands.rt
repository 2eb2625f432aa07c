// What a command comes to by its files.
ghost use Rattle.std.specs.Prelude.{◌≡◌, ◌∷◌, [], List, map, IfOk};
ghost use Rattle.whole_files.specs.Wants.{Held, want_of, held_of, AreFor};
ghost use Rattle.word_patterns.specs.Grammar.{text_now};
ghost use Rattle.command_words.specs.Asked.{Asked, IsSound, asked_of};
ghost use Rattle.command_words.specs.Files.{wants_of};
ghost use Rattle.xades_cli.specs.Commands.{ComesTo, IsComputed};
ghost use Rattle.xades_cli.specs.Outcomes.{Outcome};
ghost use Rattle.command_words.specs.Wanting.{document_want, external_want};

use crate::answers::Answer;
use crate::attach::attach_items;
use crate::canon::canonicalize;
use crate::handing::hand_in;
use crate::octets::write_octets;
use crate::prepare::prepare_document;
use crate::stop::Stop;
use crate::validate::validate_document;
use command_words::Command;
use std::alloc::Global;
use whole_files::{File, Role, Wanted, document_of};
use xa_io::OutOfMemory;

/// What a command comes to by its files, one for each that it wants.
pub fn compute(
    alloc: Global,
    command: &Command<'_>,
    mut files: Vec<File<'_>>,
) -> Result<Answer, Stop>
    requires sound { IsSound (asked_of command.now) }
    requires read { AreFor (wants_of (asked_of command.now)) (map held_of files.items) }
    ensures { IsComputed (asked_of command.now) (map held_of files.entry.items) result }
{
    match command {
        Command::Canon { method, id, .. } => {
            canonicalize(alloc, *method, *id, document_of(files.as_slice()))
        }
        Command::Octets { purpose, .. } => {
            let document = files.remove(0);
            let externals = hand_in(alloc, files)?;
            write_octets(alloc, document.bytes.as_slice(), *purpose, &externals)
        }
        Command::Prepare(preparation) => prepare_document(alloc, preparation, files),
        Command::Attach(attachment) => attach_items(alloc, attachment, files),
        Command::Validate(validation) => validate_document(alloc, validation, files),
    }
}

/// The law that at most one outcome fits what is asked and the files.
pub fn outcomes_are_one()
    ensures { (asked : Asked) (files : List Held) (one two : Outcome) → ComesTo asked files one → ComesTo asked files two → one ≡ two }
{}
