//! Kinds of time-stamps on a signature (EN 319 132-1, clauses 5.3 and 5.5.2).

/// A kind of time-stamp on a signature.
#[derive(Clone, Copy)]
pub enum StampKind {
    /// A `SignatureTimeStamp`, which covers the signature value.
    Signature,
    /// An `ArchiveTimeStamp`, which covers all that the signature has so far.
    Archive,
}
