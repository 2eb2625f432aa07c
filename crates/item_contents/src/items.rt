//! Items.

/// What is put into a document that has a signature.
#[derive(Clone, Copy)]
pub enum Item<'a> {
    /// The signature's value (XML Signature 1.1, section 4.3).
    Value(&'a [u8]),
    /// A time-stamp token over the signature's value, in DER (EN 319 132-1, clause 5.3).
    Stamp(&'a [u8]),
    /// Certificates and revocation lists, each in DER: EN 319 132-1, clause 5.4, and clause 5.5.1 where there are some already, or an archive
    /// time-stamp.
    Data {
        certificates: &'a [&'a [u8]],
        lists: &'a [&'a [u8]],
    },
    /// A time-stamp token over all that the signature has so far, in DER (EN 319 132-1, clause 5.5.2).
    Archive(&'a [u8]),
}
