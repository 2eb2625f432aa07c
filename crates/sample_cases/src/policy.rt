//! Policies that trust one certificate.

use crate::fault::CaseFault;
use base64::engine::general_purpose::STANDARD;
use policy_rules::{Policy, read_policy};
use std::alloc::Global;

/// The policy of a version that trusts a certificate, with these tables of kinds and digests.
pub fn policy_of(
    alloc: Global,
    version: u32,
    anchor: &[u8],
    tables: &str,
) -> Result<Policy, CaseFault> {
    let anchor = STANDARD.encode(alloc, anchor)?;
    let text = format!(in alloc; "version = {version}\nanchors = [\"{anchor}\"]\n{tables}")?;
    match read_policy(alloc, text.as_bytes()) {
        Ok(policy) => Ok(policy),
        Err(_) => Err(CaseFault::Shape),
    }
}

/// The policy of version 1 that trusts a certificate, and accepts HSS and SHA-256 at all times.
pub fn trusting(alloc: Global, anchor: &[u8]) -> Result<Policy, CaseFault> {
    let tables =
        "[[digest]]\nname = \"sha256\"\n[[kind]]\nname = \"hss\"\nuri = [\"urn:sample:hss\"]\n";
    policy_of(alloc, 1, anchor, tables)
}
