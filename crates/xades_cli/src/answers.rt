// What a command gives out.
ghost use Rattle.std.specs.Prelude.{◌≡◌, ◌≤◌};
ghost use Rattle.xa_io.specs.Causes.{Rose};
ghost use Rattle.xades_cli.specs.Giving.{IsGiven};

use crate::status::Status;
use xa_io::{Octs, Sink, SinkFailed};

/// What a command gives out: a text, or a report with its verdict.
#[derive(Debug, Drop)]
pub enum Answer {
    Text(Octs),
    Report { text: Octs, yes: bool },
}

// Gives an answer out. All that takes memory was done before.
pub(crate) fn give<O: Sink>(out: &mut O, answer: &Answer) -> Status
    ensures given { IsGiven answer.now result (O.given out.old) (O.given out.new) }
    ensures failed { result ≡ Status.WriteFault → Rose (O.faults out.old) (O.faults out.new) }
    ensures faults_stay { O.faults out.old ≤ O.faults out.new }
{
    match answer {
        Answer::Text(text) => match out.put(text.as_slice()) {
            Ok(()) => Status::Done,
            Err(SinkFailed) => Status::WriteFault,
        },
        Answer::Report { text, yes } => match out.put(text.as_slice()) {
            Ok(()) => { if *yes { Status::Done } else { Status::No } }
            Err(SinkFailed) => Status::WriteFault,
        },
    }
}
