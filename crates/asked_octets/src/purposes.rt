//! What octets are asked for.

/// What is to be made over octets.
#[derive(Clone, Copy, Debug, PartialEq, Eq)]
pub enum Purpose {
    /// The signature's value (XML Signature 1.1, section 3.1.2).
    Value,
    /// A time-stamp on the signature (EN 319 132-1, clause 5.3).
    SignatureStamp,
    /// A time-stamp on the archive (EN 319 132-1, clause 5.5.2).
    ArchiveStamp,
}
