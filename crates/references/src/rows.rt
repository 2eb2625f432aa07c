//! The References of a signature in memory.

ghost use Rattle.std.specs.Prelude.{◌≡◌, ◌-◌, ◌≤◌, ◌==◌, length, Some, option_map, slice_get};

use algorithms::DigestKind;
use doc_spans::NodeId;
use reference_chains::Reference;
use std::marker::Model;
use xa_io::Octs;

// A Reference with its digest.
#[derive(Drop)]
pub(crate) struct Row {
    pub(crate) reference: Reference,
    pub(crate) kind: DigestKind,
    pub(crate) value: Octs,
}

/// The References of a signature in their order: what each names, its chain and its digest, without the document.
///
/// Which they are is told where they are read (`read_refs`). They are counted from 1.
#[derive(Drop)]
pub struct Refs {
    pub(crate) signature: NodeId,
    pub(crate) rows: Vec<Row>,
}

impl Model for Refs {
    ghost use Rattle.references.specs.Shown.{Shown};

    ghost Value = { Shown };

    ghost view = { λ refs. record { signature = refs.signature; rows = refs.rows.items } };
}

impl Refs {
    /// The `Signature`.
    pub fn signature(&self) -> NodeId
        ensures { result ≡ self.now.signature }
    {
        self.signature
    }

    /// How many References there are.
    pub fn len(&self) -> usize
        ensures { result ≡ length self.now.rows }
    {
        self.rows.len()
    }

    /// Whether there is none.
    pub fn is_empty(&self) -> bool
        ensures { result ≡ (length self.now.rows == 0) }
    {
        self.rows.is_empty()
    }

    // A Reference, by its number.
    pub(crate) fn reference(&self, k: u32) -> Reference
        requires { (1 ≤ k) × (k ≤ length self.now.rows) }
        ensures { option_map (λ row. row.reference) (slice_get self.now.rows (k - 1)) ≡ Some result }
    {
        self.rows[(k - 1) as usize].reference
    }

    /// The digest algorithm of a Reference, by its number from 1: its `DigestMethod` names it (XML Signature 1.1, section 4.4.3.5).
    pub fn digest_kind(&self, k: u32) -> DigestKind
        requires { (1 ≤ k) × (k ≤ length self.now.rows) }
        ensures { option_map (λ row. row.kind) (slice_get self.now.rows (k - 1)) ≡ Some result }
    {
        self.rows[(k - 1) as usize].kind
    }

    /// The octets of a Reference's `DigestValue`, by its number from 1 (section 4.4.3.6).
    pub fn digest_value(&self, k: u32) -> &[u8]
        requires { (1 ≤ k) × (k ≤ length self.now.rows) }
        ensures { option_map (λ row. row.value) (slice_get self.now.rows (k - 1)) ≡ Some result.now }
    {
        self.rows[(k - 1) as usize].value.as_slice()
    }
}
