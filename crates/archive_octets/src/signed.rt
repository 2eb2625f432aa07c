//! The octets that the value of a signature covers, and the elements that are signed or tell who signed.

ghost use Rattle.std.specs.Prelude.{◌≡◌, ◌++◌, IfOk, OnOk};
ghost use Rattle.canon_forms.specs.Forms.{form_in};
ghost use Rattle.doc_spans.specs.Seen.{document_in};
ghost use Rattle.qualifying_props.specs.PartsOf.{AreParts};
ghost use Rattle.signature_elements.specs.Standing.{spot_of};
ghost use Rattle.signature_model.specs.Octets.{joined_octets, stamp_octets, value_octets};
ghost use Rattle.signature_model.specs.Parts.{signed_info, value, key_info};

use crate::elements::push_element;
use crate::forms::method_form;
use canon_forms::Form;
use doc_spans::Doc;
use qualifying_props::SignatureParts;
use std::alloc::Global;
use xa_io::{Octs, OutOfMemory};

/// The octets that the value of a signature covers: its `SignedInfo` in the form of its own `CanonicalizationMethod` (XML Signature 1.1,
/// section 3.1.2).
pub fn signed_octets(
    alloc: Global,
    doc: Doc<'_>,
    parts: &SignatureParts,
) -> Result<Octs, OutOfMemory>
    requires { AreParts doc parts.now }
    ensures { IfOk result (λ octets. octets ≡ value_octets (document_in doc.entry) (spot_of doc.entry parts.now.signature)) }
{
    let form = method_form(doc, parts.method_node());
    let mut out = Octs::new(alloc);
    push_element(alloc, doc, parts.signed_info(), &form, &mut out)?;
    Ok(out)
}

// The SignatureValue in a form, which a time-stamp on the value covers (EN 319 132-1, clause 5.3).
pub(crate) fn value_text(
    alloc: Global,
    doc: Doc<'_>,
    parts: &SignatureParts,
    form: &Form<'_>,
) -> Result<Octs, OutOfMemory>
    requires { AreParts doc parts.now }
    ensures { IfOk result (λ octets. octets ≡ stamp_octets (form_in form.now) (document_in doc.entry) (spot_of doc.entry parts.now.signature)) }
{
    let mut out = Octs::new(alloc);
    push_element(alloc, doc, parts.value_node(), form, &mut out)?;
    Ok(out)
}

// Appends the SignedInfo, the SignatureValue and the KeyInfo.
pub(crate) fn push_signed(
    alloc: Global,
    doc: Doc<'_>,
    parts: &SignatureParts,
    form: &Form<'_>,
    out: &mut Octs,
) -> Result<(), OutOfMemory>
    requires { AreParts doc parts.now }
    ensures { let document = document_in doc.entry in let signature = spot_of doc.entry parts.now.signature in
        OnOk result (out.new ≡ out.old ++ joined_octets (form_in form.now) document (signed_info document signature ++ value document signature ++ key_info document signature)) }
{
    push_element(alloc, doc, parts.signed_info(), form, out)?;
    push_element(alloc, doc, parts.value_node(), form, out)?;
    push_element(alloc, doc, parts.key_info(), form, out)
}
