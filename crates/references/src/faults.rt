//! Why the References of a signature aren't read.

ghost use Rattle.std.specs.Prelude.{◌≡◌};

use xa_io::OutOfMemory;

/// Why the References of a signature aren't read: the first of these that one of them has, and of this the first Reference. References are
/// counted from 1.
#[derive(Clone, Copy, Debug, PartialEq, Eq)]
pub enum RefFault {
    /// The URI is `#` and an identifier, which no element has (XML Signature 1.1, section 4.4.3.1).
    TargetMissing {
        /// The number of the Reference.
        k: u32,
    },
    /// More than one element has it.
    TargetTwice {
        /// The number of the Reference.
        k: u32,
    },
    /// The transforms are no chain (section 4.4.3.4).
    Chain {
        /// The number of the Reference.
        k: u32,
    },
    /// The digest method isn't SHA-256, SHA-384 or SHA-512 (section 4.4.3.5).
    DigestName {
        /// The number of the Reference.
        k: u32,
    },
    /// The URI names what is outside of the document, and no octets are handed in for it.
    External {
        /// The number of the Reference.
        k: u32,
    },
    /// The text that the chain decodes isn't strict base64, white space skipped (section 6.6.2).
    Base64 {
        /// The number of the Reference.
        k: u32,
        /// The length, in characters without white space, of the longest prefix with which some strict base64 begins. The greatest `u32`
        /// stands for each length from there on.
        at: u32,
    },
    /// Memory could not be had.
    OutOfMemory,
}

impl From<OutOfMemory> for RefFault {
    ghost use Rattle.references.specs.declared.faults.RefFault.TheVariants.{OutOfMemory};

    ghost from_gives = { λ _ e. e ≡ OutOfMemory };

    fn from(_: OutOfMemory) -> RefFault {
        RefFault::OutOfMemory
    }
}
