//! The first fault over all lines.

ghost use Rattle.std.specs.Prelude.{◌≡◌, IfOk, OnOk};
ghost use Rattle.doc_spans.specs.Seen.{document_in};
ghost use Rattle.signature_elements.specs.Standing.{spot_of, IsThere};
ghost use Rattle.signature_model.specs.Faults.{first_fault};
ghost use Rattle.signature_model.specs.Shape.{shape_faults};
ghost use Rattle.signature_shape.specs.Faults.{fault_in, HasFault, Tells};
ghost use Rattle.signature_shape.specs.Lines.{outer_lines, inner_lines};

use crate::faults::{Faults, ShapeFault};
use crate::what::What;
use doc_spans::{Doc, NodeId};
use inner_lines::{
    covered_line, data_object_line, key_line, signed_line, stamp_line, value_line, values_line,
};
use outer_lines::{
    form_line, info_line, method_line, parts_line, properties_line, qualifying_line, reference_line,
};
use std::alloc::Global;
use xa_io::OutOfMemory;

/// The first fault of a signature's shape: the one whose element stands first in document order, and of several there that of the first
/// line. None: the signature's elements hold what they have to.
///
/// The work is one pass over the signature for each line. The formats of data objects are gone through once, and each Reference takes a
/// look-up among them.
pub fn first_fault(
    alloc: Global,
    doc: Doc<'_>,
    signature: NodeId,
) -> Result<Option<ShapeFault>, OutOfMemory>
    requires { IsThere doc signature }
    ensures fault { IfOk result (λ fault. fault_in doc.entry fault ≡ first_fault (shape_faults (document_in doc.entry) (spot_of doc.entry signature))) }
    ensures has { IfOk result (HasFault doc.entry) }
{
    let mut faults = Faults::none();
    add_outer_lines(&mut faults, doc, signature);
    add_inner_lines(&mut faults, alloc, doc, signature)?;
    Ok(faults.first())
}

// Adds the faults of the lines on the signature's parts and on where its properties stand.
fn add_outer_lines(faults: &mut Faults, doc: Doc<'_>, signature: NodeId)
    requires has { HasFault doc faults.old.first }
    requires signature { IsThere doc signature }
    ensures { Tells doc.entry (outer_lines (document_in doc.entry) (spot_of doc.entry signature)) faults.old faults.new }
{
    faults.add_line(doc, What::Parts, parts_line(doc, signature));
    faults.add_line(doc, What::Info, info_line(doc, signature));
    faults.add_line(doc, What::Form, form_line(doc, signature));
    faults.add_line(doc, What::Method, method_line(doc, signature));
    faults.add_line(doc, What::Reference, reference_line(doc, signature));
    faults.add_line(doc, What::Qualifying, qualifying_line(doc, signature));
    faults.add_line(doc, What::Properties, properties_line(doc, signature));
}

// Adds the faults of the lines on what the properties, the key, the value and the time-stamps hold.
fn add_inner_lines(
    faults: &mut Faults,
    alloc: Global,
    doc: Doc<'_>,
    signature: NodeId,
) -> Result<(), OutOfMemory>
    requires has { HasFault doc faults.old.first }
    requires signature { IsThere doc signature }
    ensures { OnOk result (Tells doc.entry (inner_lines (document_in doc.entry) (spot_of doc.entry signature)) faults.old faults.new) }
{
    faults.add_line(doc, What::Covered, covered_line(doc, signature));
    faults.add_line(doc, What::Signed, signed_line(doc, signature));
    let data_object = data_object_line(alloc, doc, signature)?;
    faults.add_line(doc, What::DataObject, data_object);
    faults.add_line(doc, What::Key, key_line(doc, signature));
    faults.add_line(doc, What::Value, value_line(doc, signature));
    faults.add_line(doc, What::Stamp, stamp_line(doc, signature));
    faults.add_line(doc, What::Values, values_line(doc, signature));
    Ok(())
}
