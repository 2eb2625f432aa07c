//! Items that are attached to a document.

use xa_io::Octs;

/// What an item is.
#[derive(Clone, Copy, Debug, PartialEq, Eq)]
pub enum ItemKind {
    /// The signature's value, as the key made it (XML Signature 1.1, section 4.3).
    Value,
    /// A time-stamp token over the signature's value, in DER (EN 319 132-1, clause 5.3).
    Stamp,
    /// Certificates and revocation lists one after another, each in DER (EN 319 132-1, clauses 5.4 and 5.5.1).
    Material,
    /// A time-stamp token over all that the signature has so far, in DER (EN 319 132-1, clause 5.5.2).
    Archive,
}

/// An item that is to be attached to a document.
#[derive(Debug, Drop)]
pub struct Item {
    /// What it is.
    pub kind: ItemKind,
    /// Its octets.
    pub bytes: Octs,
}
