//! The canonical texts of the elements of a signature that are listed: its properties and its other Objects.

ghost use Rattle.std.specs.Prelude.{◌≡◌, ◌≤◌, ◌++◌, OnOk, length, take};
ghost use Rattle.canon_forms.specs.Forms.{form_in};
ghost use Rattle.doc_spans.specs.Seen.{document_in};
ghost use Rattle.qualifying_props.specs.PartsOf.{AreParts};
ghost use Rattle.signature_elements.specs.Standing.{spot_of};
ghost use Rattle.signature_model.specs.Octets.{joined_octets};
ghost use Rattle.signature_model.specs.Parts.{other_objects, properties};

use crate::elements::push_element;
use canon_forms::Form;
use doc_spans::Doc;
use qualifying_props::SignatureParts;
use std::alloc::Global;
use xa_io::{Octs, OutOfMemory};

// Appends the first unsigned signature properties, so many as are asked for.
pub(crate) fn push_properties(
    alloc: Global,
    doc: Doc<'_>,
    parts: &SignatureParts,
    count: usize,
    form: &Form<'_>,
    out: &mut Octs,
) -> Result<(), OutOfMemory>
    requires parts { AreParts doc parts.now }
    requires count { count ≤ length parts.now.properties }
    ensures { OnOk result (out.new ≡ out.old ++ joined_octets (form_in form.now) (document_in doc.entry) (take count (properties (document_in doc.entry) (spot_of doc.entry parts.now.signature)))) }
{
    for number in 0..count {
        let property = parts.property_node(number);
        push_element(alloc, doc, property, form, out)?;
    }
    Ok(())
}

// Appends the Objects but the one with the qualifying properties.
pub(crate) fn push_objects(
    alloc: Global,
    doc: Doc<'_>,
    parts: &SignatureParts,
    form: &Form<'_>,
    out: &mut Octs,
) -> Result<(), OutOfMemory>
    requires { AreParts doc parts.now }
    ensures { OnOk result (out.new ≡ out.old ++ joined_octets (form_in form.now) (document_in doc.entry) (other_objects (document_in doc.entry) (spot_of doc.entry parts.now.signature))) }
{
    for number in 0..parts.objects() {
        let object = parts.object_node(number);
        push_element(alloc, doc, object, form, out)?;
    }
    Ok(())
}
