//! Why tests aren't passed.

ghost use Rattle.std.specs.Prelude.{◌≡◌};

use crate::codes::Code;
use xa_io::OutOfMemory;

/// Why tests on a signature aren't passed.
#[derive(Debug, Drop)]
pub enum Objection {
    /// The first test that finds a code found this one.
    Found(Code),
    /// Memory could not be had.
    OutOfMemory,
}

impl From<OutOfMemory> for Objection {
    ghost use Rattle.signature_checks.specs.declared.objections.Objection.TheVariants as objections;

    ghost from_gives = { λ _ objection. objection ≡ objections.OutOfMemory };

    fn from(_error: OutOfMemory) -> Objection {
        Objection::OutOfMemory
    }
}
