//! Why a text gives no octets.

ghost use Rattle.std.specs.Prelude.{◌≡◌};

use xa_io::OutOfMemory;

/// Why a text gives no octets.
#[derive(Clone, Copy, Debug, PartialEq, Eq)]
pub enum Base64Fault {
    /// The text isn't strict base64 where white space is skipped. `at` is the length, in characters without white space, of the longest
    /// prefix with which some strict base64 begins; each of these characters is ASCII.
    NotBase64 { at: usize },
    /// Memory could not be had.
    OutOfMemory,
}

impl From<OutOfMemory> for Base64Fault {
    ghost use Rattle.base64_texts.specs.declared.faults.Base64Fault.TheVariants.{OutOfMemory};

    ghost from_gives = { λ _ e. e ≡ OutOfMemory };

    fn from(_: OutOfMemory) -> Base64Fault {
        Base64Fault::OutOfMemory
    }
}
