//! The octets of a Reference by its number.

ghost use Rattle.std.specs.Prelude.{◌≡◌, ◌≤◌, length, Some, IfOk, option_map};
ghost use Rattle.doc_spans.specs.Seen.{document_in, path_in};
ghost use Rattle.canon_forms.specs.Forms.{form_in};
ghost use Rattle.signature_model.specs.Octets.{reference_octets};
ghost use Rattle.reference_chains.specs.HandedIn.{handed_in};
ghost use Rattle.references.specs.RefsOf.{reference_at, AreRefs};

use crate::rows::Refs;
use canon_forms::Form;
use doc_spans::Doc;
use reference_chains::{Externals, octets_of};
use std::alloc::Global;
use xa_io::{Octs, OutOfMemory};

/// The octets of a Reference, by its number from 1: what its chain makes of its nodes, or of the octets that are handed in (XML Signature
/// 1.1, section 4.4.3.2). Nodes of which the chain makes no octets are written in the form that is given.
pub fn octets(
    alloc: Global,
    doc: Doc<'_>,
    refs: &Refs,
    k: u32,
    externals: &Externals,
    form: &Form<'_>,
) -> Result<Octs, OutOfMemory>
    requires refs { AreRefs doc refs.now }
    requires number { (1 ≤ k) × (k ≤ length refs.now.rows) }
    ensures { IfOk result (λ octets. option_map (reference_octets (form_in form.now) (handed_in externals.now) (document_in doc.entry) (path_in doc.entry refs.now.signature)) (reference_at doc.entry refs.now k) ≡ Some octets) }
{
    octets_of(
        alloc,
        doc,
        refs.signature(),
        refs.reference(k),
        externals,
        form,
    )
}
