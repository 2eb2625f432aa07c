// Why a command stops before it gives anything out.
ghost use Rattle.std.specs.Prelude.{◌≡◌};

use augmenter::Code;
use command_words::WordsFault;
use doc_spans::DocFault;
use policy_rules::PolicyFault;
use whole_files::{FileFault, Unread};
use xa_io::{Name, OutOfMemory};

/// What is refused by the bytes of the files.
#[derive(Debug, Drop)]
pub enum Refusal {
    /// The document spells no tree within the limits. `size` is its length, which is the place of a fault at its end.
    Document { fault: DocFault, size: usize },
    /// The text is no policy.
    Policy(PolicyFault),
    /// From a place on the file isn't whole DER of its kind.
    Data { name: Name, at: u64 },
    /// An item is refused; a command that has no items refuses as item 0.
    Item { item: u32, code: Code },
}

/// Why a command stops before it gives anything out.
#[derive(Debug, Drop)]
pub enum Stop {
    /// The words are those of no command; `index` is the first, from 1, that no command extends.
    Words { index: u32 },
    /// A file wasn't read.
    File { name: Name, fault: FileFault },
    /// Something is refused by the bytes of the files.
    Refusal(Refusal),
    /// Memory could not be had.
    OutOfMemory,
}

impl From<OutOfMemory> for Stop {
    ghost use Rattle.xades_cli.specs.declared.stop.Stop.TheVariants as stops;

    ghost from_gives = { λ _ stop. stop ≡ stops.OutOfMemory };

    fn from(_error: OutOfMemory) -> Stop {
        Stop::OutOfMemory
    }
}

impl From<WordsFault> for Stop {
    ghost use Rattle.xades_cli.specs.Stops.{stop_by_words};

    ghost from_gives = { λ fault stop. stop ≡ stop_by_words fault };

    fn from(fault: WordsFault) -> Stop {
        match fault {
            WordsFault::Unfit { index } => Stop::Words { index },
            WordsFault::OutOfMemory => Stop::OutOfMemory,
        }
    }
}

impl From<Unread> for Stop {
    ghost use Rattle.xades_cli.specs.Stops.{stop_unread};

    ghost from_gives = { λ why stop. stop ≡ stop_unread why };

    fn from(why: Unread) -> Stop {
        match why {
            Unread::File { name, fault } => Stop::File { name, fault },
            Unread::OutOfMemory => Stop::OutOfMemory,
        }
    }
}

/// An item is refused; a command that has no items refuses as item 0.
pub fn refuse(code: Code) -> Stop
    ensures { result ≡ Stop.Refusal (Refusal.Item 0 code) }
{
    Stop::Refusal(Refusal::Item { item: 0, code })
}
