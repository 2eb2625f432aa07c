//! The digests of the octets of References.

ghost use Rattle.std.specs.Prelude.{◌≡◌, ◌≤◌, length, Some, IfOk, map, option_map};
ghost use Rattle.doc_spans.specs.Seen.{document_in, path_in};
ghost use Rattle.reference_chains.specs.HandedIn.{handed_in};
ghost use Rattle.references.specs.RefsOf.{AreRefs, reference_at, references_in};
ghost use Rattle.signature_cases.specs.References.{row_of};

use crate::cases::ReferenceDigest;
use canon_forms::Form;
use doc_spans::Doc;
use references::{Externals, Refs, octets};
use signature_checks::digest_of;
use std::alloc::Global;
use xa_io::{Octets, Octs, OutOfMemory};

const PLAIN: Form<'static> = Form::Inclusive { comments: false };

// The digest of the octets of the Reference with a number.
fn reference_digest(
    alloc: Global,
    doc: Doc<'_>,
    refs: &Refs,
    k: u32,
    externals: &Externals,
) -> Result<ReferenceDigest, OutOfMemory>
    requires refs { AreRefs doc refs.now }
    requires number { (1 ≤ k) × (k ≤ length refs.now.rows) }
    ensures { IfOk result (λ row. option_map (row_of (handed_in externals.now) (document_in doc.entry) (path_in doc.entry refs.now.signature)) (reference_at doc.entry refs.now k) ≡ Some row) }
{
    let octets = octets(alloc, doc, refs, k, externals, &PLAIN)?;
    let kind = refs.digest_kind(k);
    let computed = digest_of(kind, octets.as_slice());
    let matches = computed.as_slice() == refs.digest_value(k);
    Ok(ReferenceDigest {
        kind,
        matches,
        computed,
    })
}

// Those of all References, in their order.
pub(crate) fn reference_digests(
    alloc: Global,
    doc: Doc<'_>,
    refs: &Refs,
    externals: &Externals,
) -> Result<Vec<ReferenceDigest>, OutOfMemory>
    requires refs { AreRefs doc refs.now }
    ensures { IfOk result (λ rows. rows.items ≡ map (row_of (handed_in externals.now) (document_in doc.entry) (path_in doc.entry refs.now.signature)) (references_in doc.entry refs.now.signature)) }
{
    let mut rows = Vec::new(alloc);
    for number in 0..refs.len() {
        let row = reference_digest(alloc, doc, refs, number as u32 + 1, externals)?;
        let Ok(()) = rows.push(row) else {
            return Err(OutOfMemory);
        };
    }
    Ok(rows)
}
