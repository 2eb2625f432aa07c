//! The names of objects.

/// An object of a pool, by its number.
#[derive(Clone, Copy, Debug, PartialEq, Eq)]
pub struct ObjectId {
    pub(crate) number: u32,
}
