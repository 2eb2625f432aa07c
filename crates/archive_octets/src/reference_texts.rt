//! The octets of all References.

ghost use Rattle.std.specs.Prelude.{◌≡◌, ◌++◌, OnOk, flat_map};
ghost use Rattle.canon_forms.specs.Forms.{form_in};
ghost use Rattle.doc_spans.specs.Seen.{document_in, path_in};
ghost use Rattle.reference_chains.specs.HandedIn.{handed_in};
ghost use Rattle.references.specs.RefsOf.{references_in, AreRefs};
ghost use Rattle.signature_model.specs.Octets.{reference_octets};

use canon_forms::Form;
use doc_spans::Doc;
use references::{Externals, Refs, octets};
use std::alloc::Global;
use xa_io::{Octs, OutOfMemory};

// Appends the octets of the References in their order. Nodes of which a chain makes no octets are written in the form.
pub(crate) fn push_references(
    alloc: Global,
    doc: Doc<'_>,
    refs: &Refs,
    externals: &Externals,
    form: &Form<'_>,
    out: &mut Octs,
) -> Result<(), OutOfMemory>
    requires { AreRefs doc refs.now }
    ensures { OnOk result (out.new ≡ out.old ++ flat_map (reference_octets (form_in form.now) (handed_in externals.now) (document_in doc.entry) (path_in doc.entry refs.now.signature)) (references_in doc.entry refs.now.signature)) }
{
    for number in 0..refs.len() {
        let k = number as u32 + 1;
        let text = octets(alloc, doc, refs, k, externals, form)?;
        out.push_all(text.as_slice())?;
    }
    Ok(())
}
