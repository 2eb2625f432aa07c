//! Policies.

ghost use Rattle.std.specs.Prelude.{◌≤◌, vec_len};
ghost use Rattle.policy_rules.specs.Whole.{AreWhole};

use crate::entries::{DigestEntry, KindEntry};

/// Trust anchors, and the kinds of signatures and digests that are accepted, each up to an end or without one.
#[derive(Debug, Drop)]
pub struct Policy {
    pub(crate) version: u32,
    pub(crate) anchors: Vec<Vec<u8>>,
    pub(crate) kinds: Vec<KindEntry>,
    pub(crate) digests: Vec<DigestEntry>,
    ghost whole: { AreWhole anchors.items },
    ghost known: { (1 ≤ version) × (version ≤ 2) },
    ghost some: { 1 ≤ vec_len anchors },
    ghost few: { vec_len anchors ≤ 64 },
}
