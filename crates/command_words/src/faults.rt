//! Why words ask nothing.

ghost use Rattle.std.specs.Prelude.{◌≡◌};

use xa_io::OutOfMemory;

/// Why words ask nothing.
#[derive(Clone, Copy, Debug, Drop)]
pub enum WordsFault {
    /// They are those of no command; `index` is the first, from 1, that no command extends, or their number and one where they end too early.
    Unfit { index: u32 },
    /// Memory could not be had.
    OutOfMemory,
}

impl From<OutOfMemory> for WordsFault {
    ghost use Rattle.command_words.specs.declared.faults.WordsFault.TheVariants as faults;

    ghost from_gives = { λ _ fault. fault ≡ faults.OutOfMemory };

    fn from(_error: OutOfMemory) -> WordsFault {
        WordsFault::OutOfMemory
    }
}
