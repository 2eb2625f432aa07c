// What a run answers.
ghost use Rattle.std.specs.Prelude.{◌≡◌};
ghost use Rattle.xades_cli.specs.Stops.{ended_by, ended_by_refusal};

use crate::stop::{Refusal, Stop};
use augmenter::Code;
use doc_spans::DocFault;
use policy_rules::PolicyFault;
use whole_files::FileFault;
use xa_io::Name;

/// What a run answers. The process ends with its number.
#[derive(Debug, Drop)]
pub enum Status {
    /// 0: the command was carried out.
    Done,
    /// 1: the report was given, and its verdict is no.
    No,
    /// 2: the words are those of no command; `index` is the first word, from 1, that no command extends.
    BadWords { index: u32 },
    /// 3: there is no file of this name.
    NoSuchFile { name: Name },
    /// 4: the file couldn't be read.
    ReadFault { name: Name },
    /// 5: the output couldn't be written, or only a first part of it.
    WriteFault,
    /// 6: the file is longer than its limit; `got` bytes came.
    TooLong { name: Name, got: u64 },
    /// 7: the document spells no tree within the limits.
    BadDocument(DocFault),
    /// 8: the text is no policy.
    BadPolicy(PolicyFault),
    /// 9: from a place on the file isn't whole DER of its kind.
    BadData { name: Name, at: u64 },
    /// 10: an item is refused; a command without items refuses as item 0.
    Refused { item: u32, code: Code },
    /// 11: memory could not be had.
    OutOfMemory,
}

impl Status {
    ghost use Rattle.xades_cli.specs.Lines.{status_number};

    /// The number with which the process ends.
    pub fn number(&self) -> u8
        ensures { result ≡ status_number self.now }
    {
        match self {
            Status::Done => 0,
            Status::No => 1,
            Status::BadWords { .. } => 2,
            Status::NoSuchFile { .. } => 3,
            Status::ReadFault { .. } => 4,
            Status::WriteFault => 5,
            Status::TooLong { .. } => 6,
            Status::BadDocument(_) => 7,
            Status::BadPolicy(_) => 8,
            Status::BadData { .. } => 9,
            Status::Refused { .. } => 10,
            Status::OutOfMemory => 11,
        }
    }
}

/// How a run ended: its status, and for a fault of the document its length, which is the place of a fault at its end.
#[derive(Debug, Drop)]
pub struct Ended {
    pub status: Status,
    pub size: usize,
}

fn by_refusal(refusal: Refusal) -> Ended
    ensures { result ≡ ended_by_refusal refusal }
{
    let mut size = 0;
    let status = match refusal {
        Refusal::Document {
            fault,
            size: length,
        } => {
            size = length;
            Status::BadDocument(fault)
        }
        Refusal::Policy(fault) => Status::BadPolicy(fault),
        Refusal::Data { name, at } => Status::BadData { name, at },
        Refusal::Item { item, code } => Status::Refused { item, code },
    };
    Ended { status, size }
}

// How a command that stops ends.
pub(crate) fn ended_by(stop: Stop) -> Ended
    ensures { result ≡ ended_by stop }
{
    let status = match stop {
        Stop::Words { index } => Status::BadWords { index },
        Stop::File { name, fault } => match fault {
            FileFault::NoSuch => Status::NoSuchFile { name },
            FileFault::Failed => Status::ReadFault { name },
            FileFault::TooLong { got } => Status::TooLong { name, got },
        },
        Stop::Refusal(refusal) => return by_refusal(refusal),
        Stop::OutOfMemory => Status::OutOfMemory,
    };
    Ended { status, size: 0 }
}
