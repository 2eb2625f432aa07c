//! The lines of a signature's shape.

/// Which part of a signature's shape is at fault: the words of the lines, in their order.
#[derive(Clone, Copy, PartialEq, Eq, Debug)]
pub enum What {
    /// The children of the Signature.
    Parts,
    /// The children of SignedInfo.
    Info,
    /// The canonicalization methods of SignedInfo and of time-stamps.
    Form,
    /// The signature method.
    Method,
    /// The References.
    Reference,
    /// Where the qualifying properties stand, and what they point to.
    Qualifying,
    /// The children of the qualifying properties.
    Properties,
    /// The Reference that covers the signed properties.
    Covered,
    /// The signed properties of the signature.
    Signed,
    /// The signed properties of the data objects.
    DataObject,
    /// The certificates of KeyInfo.
    Key,
    /// The value of the signature.
    Value,
    /// The time-stamps.
    Stamp,
    /// The values of certificates and revocation lists, and what no other line mentions.
    Values,
}
