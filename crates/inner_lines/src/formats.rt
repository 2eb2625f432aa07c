//! The formats of data objects (EN 319 132-1, clause 5.2.4).

ghost use Rattle.std.specs.Prelude.{◌≡◌, ◌∷◌, ℕ, List, IfOk, IfSome, OnOk, codes, filter, take};
ghost use Rattle.doc_spans.specs.Seen.{document_in};
ghost use Rattle.node_index.specs.Indices.{sighted};
ghost use Rattle.signature_elements.specs.Standing.{spot_of, spot_or_none, IsThere};
ghost use Rattle.signature_model.specs.Shape.{format_faults};
ghost use Rattle.signature_model.specs.Spots.{Spot, called_in};
ghost use Rattle.signature_model.specs.Vocabulary.{xades};
ghost use Rattle.inner_lines.specs.DataObjects.{seen_in, AddsFormat, AreThere, IsFound, IsIndexOf};
ghost use Rattle.inner_lines.specs.LineParts.{faults_by_formats, is_format_of, format_text_faults};
ghost use Rattle.signature_parts.specs.Places.{Adds, IsWithin};

use crate::data_objects::DataObjects;
use doc_spans::{Doc, NodeId};
use node_index::{NodeIndex, Sightings, fragment, gathered};
use signature_elements::{attribute, first_called, xades};
use signature_parts::{FirstPlace, NamedIn};
use std::alloc::Global;
use xa_io::OutOfMemory;

/// The `DataObjectFormat` elements that an element holds, by what they point to.
pub(crate) fn formats_by_target(
    alloc: Global,
    doc: Doc<'_>,
    holder: Option<NodeId>,
) -> Result<NodeIndex, OutOfMemory>
    requires { IfSome holder (IsThere doc) }
    ensures { IfOk result (IsIndexOf doc.entry (called_in (document_in doc.entry) (xades (codes "DataObjectFormat")) (spot_or_none doc.entry holder))) }
{
    let mut index = NodeIndex::new(alloc);
    for format in NamedIn::of(doc, holder, xades("DataObjectFormat")) {
        add_target(&mut index, alloc, doc, format)?;
    }
    Ok(index)
}

// Adds a format under what it points to.
fn add_target(
    index: &mut NodeIndex,
    alloc: Global,
    doc: Doc<'_>,
    format: NodeId,
) -> Result<(), OutOfMemory>
    requires format { IsThere doc format }
    requires there { (uri : List ℕ) → AreThere doc (sighted index.old uri) }
    ensures { OnOk result (AddsFormat doc.entry format index.old index.new) }
{
    if let Some(target) = attribute(doc, format, "ObjectReference") {
        index.add(gathered(alloc, target)?, format)?;
    }
    Ok(())
}

/// Adds the faults of the formats that point to a Reference by its Id: there is one, with a `MimeType` that isn't blank.
///
/// Of several formats the second is the first of those that are too many.
pub(crate) fn add_format_faults(
    place: &mut FirstPlace,
    alloc: Global,
    doc: Doc<'_>,
    objects: &DataObjects,
    reference: NodeId,
) -> Result<(), OutOfMemory>
    requires within { IsWithin doc place.old }
    requires found { IsFound doc objects.now }
    requires there { IsThere doc reference }
    ensures { OnOk result (Adds doc.entry (format_faults (document_in doc.entry) (spot_of doc.entry objects.now.signature) (spot_of doc.entry reference)) place.old place.new) }
{
    let seen = formats_of(alloc, doc, &objects.formats, reference)?;
    add_seen(place, doc, objects.properties, seen);
    Ok(())
}

// The first two formats that point to a Reference by its Id.
fn formats_of(
    alloc: Global,
    doc: Doc<'_>,
    formats: &NodeIndex,
    reference: NodeId,
) -> Result<Sightings, OutOfMemory>
    requires { IsThere doc reference }
    ensures seen { IfOk result (λ seen. (all : List Spot) → IsIndexOf doc.entry all formats.now → seen_in doc.entry seen ≡ take 2 (filter (is_format_of (spot_of doc.entry reference)) all)) }
    ensures there { IfOk result (λ seen. (all : List Spot) → IsIndexOf doc.entry all formats.now → AreThere doc.entry seen) }
{
    match attribute(doc, reference, "Id") {
        Some(id) => {
            let uri = fragment(alloc, id)?;
            Ok(formats.find(uri.as_str()))
        }
        None => Ok(Sightings::Absent),
    }
}

// Adds the faults of the first two formats that point to a Reference.
fn add_seen(place: &mut FirstPlace, doc: Doc<'_>, properties: Option<NodeId>, seen: Sightings)
    requires within { IsWithin doc place.old }
    requires properties { IfSome properties (IsThere doc) }
    requires seen { AreThere doc seen }
    ensures { Adds doc.entry (faults_by_formats (document_in doc.entry) (spot_or_none doc.entry properties) (seen_in doc.entry seen)) place.old place.new }
{
    match seen {
        Sightings::Absent => place.add_part(doc, properties),
        Sightings::One(format) => add_format(place, doc, format),
        Sightings::Several { first, second } => {
            place.add(doc, second);
            add_format(place, doc, first);
        }
    }
}

// What a format holds.
fn add_format(place: &mut FirstPlace, doc: Doc<'_>, format: NodeId)
    requires within { IsWithin doc place.old }
    requires there { IsThere doc format }
    ensures { Adds doc.entry (format_text_faults (document_in doc.entry) (spot_or_none doc.entry (Some format))) place.old place.new }
{
    place.add_with_stray_text(doc, Some(format));
    place.add_lacking(doc, xades("MimeType"), Some(format));
    place.add_without_text(doc, first_called(doc, format, xades("MimeType")));
}
