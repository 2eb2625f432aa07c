//! The canonical text of an element.

ghost use Rattle.std.specs.Prelude.{◌≡◌, ◌++◌, OnOk};
ghost use Rattle.canon_forms.specs.Forms.{form_in};
ghost use Rattle.doc_spans.specs.Seen.{document_in};
ghost use Rattle.signature_elements.specs.Standing.{spot_of, IsThere};
ghost use Rattle.signature_model.specs.Octets.{subtree_octets};

use canon_forms::{Form, to_vec};
use doc_spans::{Doc, NodeId};
use node_sets::NodeSet;
use std::alloc::Global;
use xa_io::{Octs, OutOfMemory};

// Appends the canonical text of an element with all that is in it.
pub(crate) fn push_element(
    alloc: Global,
    doc: Doc<'_>,
    element: NodeId,
    form: &Form<'_>,
    out: &mut Octs,
) -> Result<(), OutOfMemory>
    requires { IsThere doc element }
    ensures { OnOk result (out.new ≡ out.old ++ subtree_octets (form_in form.now) (document_in doc.entry) (spot_of doc.entry element)) }
{
    let text = to_vec(alloc, &NodeSet::subtree(doc, element), form)?;
    out.push_all(text.as_slice())
}
