//! Where a certificate or CRL stands in a pool.

/// The number of an object, and whether it is a CRL.
#[derive(Clone, Copy, Debug)]
pub(crate) struct Place {
    pub(crate) number: u32,
    pub(crate) is_list: bool,
}
