//! The octets that an archive time-stamp covers (EN 319 132-1, clause 5.5.2).

ghost use Rattle.std.specs.Prelude.{◌≡◌, ◌≤◌, IfOk, length, take};
ghost use Rattle.canon_forms.specs.Forms.{form_in};
ghost use Rattle.doc_spans.specs.Seen.{document_in};
ghost use Rattle.qualifying_props.specs.PartsOf.{AreParts};
ghost use Rattle.reference_chains.specs.HandedIn.{handed_in};
ghost use Rattle.references.specs.RefsOf.{AreRefsOf};
ghost use Rattle.signature_elements.specs.Standing.{spot_of};
ghost use Rattle.signature_model.specs.Octets.{archive_octets};
ghost use Rattle.signature_model.specs.Parts.{properties};

use crate::listed::{push_objects, push_properties};
use crate::reference_texts::push_references;
use crate::signed::push_signed;
use canon_forms::Form;
use doc_spans::Doc;
use qualifying_props::SignatureParts;
use references::{Externals, Refs};
use std::alloc::Global;
use xa_io::{Octs, OutOfMemory};

// Those of an archive time-stamp in a form with so many properties before it.
pub(crate) fn archive_octets(
    alloc: Global,
    doc: Doc<'_>,
    parts: &SignatureParts,
    refs: &Refs,
    externals: &Externals,
    form: &Form<'_>,
    before: usize,
) -> Result<Octs, OutOfMemory>
    requires parts { AreParts doc parts.now }
    requires refs { AreRefsOf doc parts.now refs.now }
    requires before { before ≤ length parts.now.properties }
    ensures { let document = document_in doc.entry in let signature = spot_of doc.entry parts.now.signature in
        IfOk result (λ octets. octets ≡ archive_octets (form_in form.now) (handed_in externals.now) document signature (take before (properties document signature))) }
{
    let mut out = Octs::new(alloc);
    push_references(alloc, doc, refs, externals, form, &mut out)?;
    push_signed(alloc, doc, parts, form, &mut out)?;
    push_properties(alloc, doc, parts, before, form, &mut out)?;
    push_objects(alloc, doc, parts, form, &mut out)?;
    Ok(out)
}
