//! The parts of a signature that are several elements, by their nodes.

ghost use Rattle.std.specs.Prelude.{◌≡◌, IfOk};
ghost use Rattle.doc_spans.specs.Seen.{document_in};
ghost use Rattle.signature_elements.specs.Standing.{spot_of, IsThere};
ghost use Rattle.signature_model.specs.Parts.{references, other_objects, has_values};
ghost use Rattle.qualifying_props.specs.PartsOf.{AreElements};

use doc_spans::{Doc, NodeId};
use signature_parts::{is_qualifying, is_values, objects, properties, references};
use std::alloc::Global;
use xa_io::OutOfMemory;

// The References of a signature.
pub(crate) fn reference_nodes(
    alloc: Global,
    doc: Doc<'_>,
    signature: NodeId,
) -> Result<Vec<NodeId>, OutOfMemory>
    requires { IsThere doc signature }
    ensures { IfOk result (λ nodes. AreElements doc.entry (references (document_in doc.entry) (spot_of doc.entry signature)) nodes.items) }
{
    let mut nodes = Vec::new(alloc);
    for reference in references(doc, signature) {
        let Ok(_) = nodes.push(reference) else {
            return Err(OutOfMemory);
        };
    }
    Ok(nodes)
}

// The Objects of a signature that hold no qualifying properties.
pub(crate) fn object_nodes(
    alloc: Global,
    doc: Doc<'_>,
    signature: NodeId,
) -> Result<Vec<NodeId>, OutOfMemory>
    requires { IsThere doc signature }
    ensures { IfOk result (λ nodes. AreElements doc.entry (other_objects (document_in doc.entry) (spot_of doc.entry signature)) nodes.items) }
{
    let mut nodes = Vec::new(alloc);
    for object in objects(doc, signature) {
        if is_qualifying(doc, object) {
            continue;
        }
        let Ok(_) = nodes.push(object) else {
            return Err(OutOfMemory);
        };
    }
    Ok(nodes)
}

// Whether there are CertificateValues or RevocationValues outside TimeStampValidationData.
pub(crate) fn has_values(doc: Doc<'_>, signature: NodeId) -> bool
    requires { IsThere doc signature }
    ensures { result ≡ has_values (document_in doc.entry) (spot_of doc.entry signature) }
{
    for property in properties(doc, signature) {
        if is_values(doc, property) {
            return true;
        }
    }
    false
}
