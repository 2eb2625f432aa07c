//! Certificates and CRLs in unsigned properties (EN 319 132-1, clauses 5.4 and 5.5.1).

ghost use Rattle.std.specs.Prelude.{flat_map, OnOk};
ghost use Rattle.doc_spans.specs.Seen.{document_in};
ghost use Rattle.signature_elements.specs.Standing.{spot_of, IsThere};
ghost use Rattle.signature_model.specs.Parts.{data_of_values, values_of};
ghost use Rattle.signature_parts.specs.Places.{IsWithin};
ghost use Rattle.qualifying_props.specs.Data.{inner_data, lists_of, Reads};

use crate::kinds::DatumKind;
use crate::values::read_elements;
use doc_spans::{Doc, NodeId};
use signature_elements::{called, elements, xades};
use signature_parts::{FirstPlace, is_certificate_values, is_validation_data, is_values};
use std::alloc::Global;
use xa_io::{Octs, OutOfMemory};

// Reads the CRLs of a RevocationValues.
fn read_lists(
    alloc: Global,
    doc: Doc<'_>,
    values: NodeId,
    octets: &mut Vec<Octs>,
    bad: &mut FirstPlace,
) -> Result<(), OutOfMemory>
    requires within { IsWithin doc bad.old }
    requires there { IsThere doc values }
    ensures { OnOk result (Reads doc.entry (lists_of (document_in doc.entry) (spot_of doc.entry values)) octets.old.items octets.new.items bad.old bad.new) }
{
    for holder in called(doc, values, xades("CRLValues")) {
        let elements = called(doc, holder, xades("EncapsulatedCRLValue"));
        read_elements(alloc, doc, DatumKind::RevocationList, elements, octets, bad)?;
    }
    Ok(())
}

// Reads the certificates of a CertificateValues, or the CRLs of a RevocationValues.
fn read_values(
    alloc: Global,
    doc: Doc<'_>,
    values: NodeId,
    octets: &mut Vec<Octs>,
    bad: &mut FirstPlace,
) -> Result<(), OutOfMemory>
    requires within { IsWithin doc bad.old }
    requires there { IsThere doc values }
    ensures { OnOk result (Reads doc.entry (data_of_values (document_in doc.entry) (spot_of doc.entry values)) octets.old.items octets.new.items bad.old bad.new) }
{
    if is_certificate_values(doc, values) {
        let elements = called(doc, values, xades("EncapsulatedX509Certificate"));
        return read_elements(alloc, doc, DatumKind::Certificate, elements, octets, bad);
    }
    read_lists(alloc, doc, values, octets, bad)
}

// Reads those in a TimeStampValidationData.
fn read_inner_values(
    alloc: Global,
    doc: Doc<'_>,
    property: NodeId,
    octets: &mut Vec<Octs>,
    bad: &mut FirstPlace,
) -> Result<(), OutOfMemory>
    requires within { IsWithin doc bad.old }
    requires there { IsThere doc property }
    ensures { OnOk result (Reads doc.entry (inner_data (document_in doc.entry) (spot_of doc.entry property)) octets.old.items octets.new.items bad.old bad.new) }
{
    for values in elements(doc, property) {
        if !is_values(doc, values) {
            continue;
        }
        read_values(alloc, doc, values, octets, bad)?;
    }
    Ok(())
}

// Reads the certificates and CRLs of a property that is no time-stamp.
pub(crate) fn read_material(
    alloc: Global,
    doc: Doc<'_>,
    property: NodeId,
    octets: &mut Vec<Octs>,
    bad: &mut FirstPlace,
) -> Result<(), OutOfMemory>
    requires within { IsWithin doc bad.old }
    requires there { IsThere doc property }
    ensures { OnOk result (Reads doc.entry (flat_map (data_of_values (document_in doc.entry)) (values_of (document_in doc.entry) (spot_of doc.entry property))) octets.old.items octets.new.items bad.old bad.new) }
{
    if is_values(doc, property) {
        return read_values(alloc, doc, property, octets, bad);
    }
    if is_validation_data(doc, property) {
        return read_inner_values(alloc, doc, property, octets, bad);
    }
    Ok(())
}
