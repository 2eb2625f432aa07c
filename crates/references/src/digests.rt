//! Whether a Reference has the digest that it tells.

ghost use Rattle.std.specs.Prelude.{◌≡◌, ◌≤◌, length, Some, IfOk, option_map};
ghost use Rattle.doc_spans.specs.Seen.{document_in, path_in};
ghost use Rattle.qualifying_props.specs.Digests.{digest};
ghost use Rattle.reference_chains.specs.HandedIn.{handed_in};
ghost use Rattle.references.specs.RefsOf.{reference_at, AreRefs};
ghost use Rattle.signature_model.specs.Octets.{has_its_digest};

use crate::made_octets::octets;
use crate::rows::Refs;
use canon_forms::Form;
use doc_spans::Doc;
use qualifying_props::has_digest;
use reference_chains::Externals;
use std::alloc::Global;
use xa_io::OutOfMemory;

const PLAIN: Form<'static> = Form::Inclusive { comments: false };

/// Whether the digest of a Reference's octets is its `DigestValue` (XML Signature 1.1, section 3.2.1), by the Reference's number from 1.
/// Nodes of which its chain makes no octets are written in Canonical XML 1.0 without comments.
pub fn digest_ok(
    alloc: Global,
    doc: Doc<'_>,
    refs: &Refs,
    k: u32,
    externals: &Externals,
) -> Result<bool, OutOfMemory>
    requires refs { AreRefs doc refs.now }
    requires number { (1 ≤ k) × (k ≤ length refs.now.rows) }
    ensures { IfOk result (λ right. option_map (has_its_digest digest (handed_in externals.now) (document_in doc.entry) (path_in doc.entry refs.now.signature)) (reference_at doc.entry refs.now k) ≡ Some right) }
{
    let octets = octets(alloc, doc, refs, k, externals, &PLAIN)?;
    Ok(has_digest(refs.digest_kind(k), refs.digest_value(k), octets.as_slice()))
}
