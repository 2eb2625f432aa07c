//! The tokens and stamps of a case.

use cert_paths::ObjectId;

/// A token with its object.
#[derive(Drop)]
pub(crate) struct TokenRow {
    pub(crate) object: ObjectId,
    pub(crate) bytes: Vec<u8>,
}

/// A time-stamp: its token's object, the number of that token among the tokens, whether it is sound, and what it covers.
#[derive(Drop)]
pub(crate) struct StampRow {
    pub(crate) object: ObjectId,
    pub(crate) token: usize,
    pub(crate) sound: bool,
    pub(crate) covers: Vec<ObjectId>,
}
