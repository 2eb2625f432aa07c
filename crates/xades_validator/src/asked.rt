//! What a validation is asked beside the document.

use policy_rules::Policy;
use references::Externals;

/// By which policy, at which moment in seconds since 1970, and with what is handed in: octets for References, and whole certificates and
/// revocation lists in DER one after another.
#[derive(Clone, Copy)]
pub(crate) struct Asked<'a> {
    pub(crate) policy: &'a Policy,
    pub(crate) now: i64,
    pub(crate) externals: &'a Externals,
    pub(crate) more: &'a [u8],
}
