//! The signed properties of the data objects.

ghost use Rattle.std.specs.Prelude.{◌≡◌, filter, IfOk, not, OnOk};
ghost use Rattle.document_model.specs.Characters.{is_empty};
ghost use Rattle.doc_spans.specs.Seen.{Has, document_in};
ghost use Rattle.signature_elements.specs.Standing.{spot_of, spot_or_none, IsThere};
ghost use Rattle.signature_model.specs.Parts.{references};
ghost use Rattle.signature_model.specs.Shape.{data_object_line, data_object_line_of, wants_format};
ghost use Rattle.inner_lines.specs.DataObjects.{IsFound};
ghost use Rattle.inner_lines.specs.LineParts.{wanting_faults, without_data_properties};
ghost use Rattle.signature_parts.specs.Places.{Adds, IsFirst, IsWithin};

use crate::data_objects::DataObjects;
use crate::formats::add_format_faults;
use crate::identifying::is_to_key_info;
use doc_spans::{Doc, NodeId};
use signature_elements::{has_attribute, xades};
use signature_parts::{FirstPlace, is_typed, references, signed_properties};
use std::alloc::Global;
use xa_io::OutOfMemory;

/// A Reference other than that to the signed properties, and other than one to KeyInfo, has an Id, and one `DataObjectFormat` points to
/// it, with a `MimeType` that isn't blank (EN 319 132-1, clause 5.2.4).
pub fn data_object_line(
    alloc: Global,
    doc: Doc<'_>,
    signature: NodeId,
) -> Result<FirstPlace, OutOfMemory>
    requires { Has doc signature }
    ensures { IfOk result (IsFirst doc.entry (data_object_line (document_in doc.entry) (spot_of doc.entry signature))) }
{
    let objects = DataObjects::of(alloc, doc, signature)?;
    line_of(alloc, doc, &objects)
}

// The line, by what the signature has.
fn line_of(alloc: Global, doc: Doc<'_>, objects: &DataObjects) -> Result<FirstPlace, OutOfMemory>
    requires signature { Has doc objects.now.signature }
    requires found { IsFound doc objects.now }
    ensures { IfOk result (IsFirst doc.entry (data_object_line (document_in doc.entry) (spot_of doc.entry objects.now.signature))) }
{
    let mut place = FirstPlace::none();
    place.add_with_stray_text(doc, objects.properties);
    add_without_properties(&mut place, doc, objects);
    add_references(&mut place, alloc, doc, objects)?;
    Ok(place)
}

// Whether a Reference wants a format.
fn wants_format(doc: Doc<'_>, objects: &DataObjects, reference: NodeId) -> bool
    requires found { IsFound doc objects.now }
    requires there { IsThere doc reference }
    ensures { result ≡ wants_format (document_in doc.entry) (spot_of doc.entry objects.now.signature) (spot_of doc.entry reference) }
{
    !is_typed(doc, reference) && !is_to_key_info(doc, objects.key, reference)
}

fn wants_any(doc: Doc<'_>, objects: &DataObjects) -> bool
    requires signature { Has doc objects.now.signature }
    requires found { IsFound doc objects.now }
    ensures { result ≡ not (is_empty (filter (wants_format (document_in doc.entry) (spot_of doc.entry objects.now.signature)) (references (document_in doc.entry) (spot_of doc.entry objects.now.signature)))) }
{
    for reference in references(doc, objects.signature) {
        if wants_format(doc, objects, reference) {
            return true;
        }
    }
    false
}

// The `SignedProperties`, where a Reference wants a format and there is no element for it.
fn add_without_properties(place: &mut FirstPlace, doc: Doc<'_>, objects: &DataObjects)
    requires within { IsWithin doc place.old }
    requires signature { Has doc objects.now.signature }
    requires found { IsFound doc objects.now }
    ensures { Adds doc.entry (without_data_properties (document_in doc.entry) (spot_of doc.entry objects.now.signature)) place.old place.new }
{
    if wants_any(doc, objects) {
        place.add_lacking(
            doc,
            xades("SignedDataObjectProperties"),
            signed_properties(doc, objects.signature),
        );
    }
}

fn add_references(
    place: &mut FirstPlace,
    alloc: Global,
    doc: Doc<'_>,
    objects: &DataObjects,
) -> Result<(), OutOfMemory>
    requires within { IsWithin doc place.old }
    requires signature { Has doc objects.now.signature }
    requires found { IsFound doc objects.now }
    ensures { OnOk result (Adds doc.entry (wanting_faults (document_in doc.entry) (spot_of doc.entry objects.now.signature) (references (document_in doc.entry) (spot_of doc.entry objects.now.signature))) place.old place.new) }
{
    for reference in references(doc, objects.signature) {
        add_reference(place, alloc, doc, objects, reference)?;
    }
    Ok(())
}

fn add_reference(
    place: &mut FirstPlace,
    alloc: Global,
    doc: Doc<'_>,
    objects: &DataObjects,
    reference: NodeId,
) -> Result<(), OutOfMemory>
    requires within { IsWithin doc place.old }
    requires found { IsFound doc objects.now }
    requires there { IsThere doc reference }
    ensures { OnOk result (Adds doc.entry (wanting_faults (document_in doc.entry) (spot_of doc.entry objects.now.signature) (spot_or_none doc.entry (Some reference))) place.old place.new) }
{
    if wants_format(doc, objects, reference) {
        return add_wanting(place, alloc, doc, objects, reference);
    }
    Ok(())
}

// The faults of a Reference that wants a format.
fn add_wanting(
    place: &mut FirstPlace,
    alloc: Global,
    doc: Doc<'_>,
    objects: &DataObjects,
    reference: NodeId,
) -> Result<(), OutOfMemory>
    requires within { IsWithin doc place.old }
    requires found { IsFound doc objects.now }
    requires there { IsThere doc reference }
    ensures { OnOk result (Adds doc.entry (data_object_line_of (document_in doc.entry) (spot_of doc.entry objects.now.signature) (spot_of doc.entry reference)) place.old place.new) }
{
    if has_attribute(doc, reference, "Id") {
        return add_format_faults(place, alloc, doc, objects, reference);
    }
    place.add(doc, reference);
    Ok(())
}
