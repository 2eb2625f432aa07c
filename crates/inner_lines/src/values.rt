//! The values of certificates and revocation lists, and what no other line mentions.

ghost use Rattle.std.specs.Prelude.{◌≡◌, codes, filter};
ghost use Rattle.doc_spans.specs.Seen.{Has, document_in};
ghost use Rattle.signature_elements.specs.NamedLeft.{called_doc, called_left};
ghost use Rattle.signature_elements.specs.Standing.{spot_of, spot_or_none, IsThere};
ghost use Rattle.signature_model.specs.Parts.{is_validation_data, is_values, properties, references, values_of};
ghost use Rattle.signature_model.specs.Holding.{with_stray_text, without_value};
ghost use Rattle.signature_model.specs.Shape.{values_line};
ghost use Rattle.signature_model.specs.Spots.{called, called_in, elements_in};
ghost use Rattle.signature_model.specs.Vocabulary.{xades};
ghost use Rattle.signature_parts.specs.Places.{Adds, IsFirst, IsWithin};
ghost use Rattle.inner_lines.specs.LineParts.{revocation_lists, data_in_values, values_faults, material_faults, transform_faults, transforms_faults};

use doc_spans::{Doc, NodeId};
use signature_elements::{NamedElements, called, ds, elements, xades};
use signature_parts::{
    FirstPlace, certificate_digest, digest_method, is_certificate_values, is_revocation_values,
    is_validation_data, is_values, properties, references, transform_lists, unsigned_signature,
};

/// The unsigned properties have one `CertificateValues` and one `RevocationValues` at most, those in `TimeStampValidationData` aside
/// (EN 319 132-1, clauses 5.4 and 5.5). What no other line mentions is here, too.
pub fn values_line(doc: Doc<'_>, signature: NodeId) -> FirstPlace
    requires { Has doc signature }
    ensures { IsFirst doc.entry (values_line (document_in doc.entry) (spot_of doc.entry signature)) result }
{
    let holder = unsigned_signature(doc, signature);
    let mut place = FirstPlace::none();
    place.add_further(doc, xades("CertificateValues"), holder);
    place.add_further(doc, xades("RevocationValues"), holder);
    add_properties(&mut place, doc, signature);
    add_transforms(&mut place, doc, signature);
    place.add_with_stray_text(doc, digest_method(doc, certificate_digest(doc, signature)));
    place
}

fn add_properties(place: &mut FirstPlace, doc: Doc<'_>, signature: NodeId)
    requires within { IsWithin doc place.old }
    requires has { Has doc signature }
    ensures { Adds doc.entry (material_faults (document_in doc.entry) (properties (document_in doc.entry) (spot_of doc.entry signature))) place.old place.new }
{
    for property in properties(doc, signature) {
        add_property(place, doc, property);
    }
}

fn add_property(place: &mut FirstPlace, doc: Doc<'_>, property: NodeId)
    requires within { IsWithin doc place.old }
    requires there { IsThere doc property }
    ensures { Adds doc.entry (material_faults (document_in doc.entry) (spot_or_none doc.entry (Some property))) place.old place.new }
{
    add_validation_data(place, doc, property);
    add_values_of(place, doc, property);
}

// The property, where it is `TimeStampValidationData` and holds stray text.
fn add_validation_data(place: &mut FirstPlace, doc: Doc<'_>, property: NodeId)
    requires within { IsWithin doc place.old }
    requires there { IsThere doc property }
    ensures { Adds doc.entry (with_stray_text (document_in doc.entry) (filter is_validation_data (spot_or_none doc.entry (Some property)))) place.old place.new }
{
    if is_validation_data(doc, property) {
        place.add_with_stray_text(doc, Some(property));
    }
}

fn add_values_of(place: &mut FirstPlace, doc: Doc<'_>, property: NodeId)
    requires within { IsWithin doc place.old }
    requires there { IsThere doc property }
    ensures { Adds doc.entry (values_faults (document_in doc.entry) (values_of (document_in doc.entry) (spot_of doc.entry property))) place.old place.new }
{
    if is_values(doc, property) {
        add_values(place, doc, property);
    } else if is_validation_data(doc, property) {
        add_values_in(place, doc, property);
    }
}

fn add_values_in(place: &mut FirstPlace, doc: Doc<'_>, property: NodeId)
    requires within { IsWithin doc place.old }
    requires there { IsThere doc property }
    ensures { Adds doc.entry (values_faults (document_in doc.entry) (filter is_values (elements_in (document_in doc.entry) (spot_of doc.entry property)))) place.old place.new }
{
    for child in elements(doc, property) {
        add_where_values(place, doc, child);
    }
}

fn add_where_values(place: &mut FirstPlace, doc: Doc<'_>, child: NodeId)
    requires within { IsWithin doc place.old }
    requires there { IsThere doc child }
    ensures { Adds doc.entry (values_faults (document_in doc.entry) (filter is_values (spot_or_none doc.entry (Some child)))) place.old place.new }
{
    if is_values(doc, child) {
        add_values(place, doc, child);
    }
}

fn add_values(place: &mut FirstPlace, doc: Doc<'_>, holder: NodeId)
    requires within { IsWithin doc place.old }
    requires there { IsThere doc holder }
    ensures { Adds doc.entry (values_faults (document_in doc.entry) (spot_or_none doc.entry (Some holder))) place.old place.new }
{
    place.add_with_stray_text(doc, Some(holder));
    add_lists(place, doc, holder);
    add_data(place, doc, holder);
}

// The lists of CRLs.
fn revocation_lists<'a>(doc: Doc<'a>, holder: NodeId) -> NamedElements<'a, 'static>
    requires { Has doc holder }
    ensures doc { called_doc result ≡ doc.entry }
    ensures spots { called_left result ≡ called (document_in doc.entry) (xades (codes "CRLValues")) (spot_of doc.entry holder) }
{
    called(doc, holder, xades("CRLValues"))
}

// Those of them that hold stray text.
fn add_lists(place: &mut FirstPlace, doc: Doc<'_>, holder: NodeId)
    requires within { IsWithin doc place.old }
    requires there { IsThere doc holder }
    ensures { Adds doc.entry (with_stray_text (document_in doc.entry) (revocation_lists (document_in doc.entry) (spot_of doc.entry holder))) place.old place.new }
{
    if is_revocation_values(doc, holder) {
        place.add_each_with_stray_text(doc, revocation_lists(doc, holder));
    }
}

// Those of the certificates or CRLs that hold something else than text.
fn add_data(place: &mut FirstPlace, doc: Doc<'_>, holder: NodeId)
    requires within { IsWithin doc place.old }
    requires there { IsThere doc holder }
    ensures { Adds doc.entry (without_value (document_in doc.entry) (data_in_values (document_in doc.entry) (spot_or_none doc.entry (Some holder)))) place.old place.new }
{
    if is_certificate_values(doc, holder) {
        place.add_each_without_value(
            doc,
            called(doc, holder, xades("EncapsulatedX509Certificate")),
        );
    } else {
        add_revocation_lists(place, doc, holder);
    }
}

fn add_revocation_lists(place: &mut FirstPlace, doc: Doc<'_>, holder: NodeId)
    requires within { IsWithin doc place.old }
    requires there { IsThere doc holder }
    ensures { Adds doc.entry (without_value (document_in doc.entry) (called_in (document_in doc.entry) (xades (codes "EncapsulatedCRLValue")) (called (document_in doc.entry) (xades (codes "CRLValues")) (spot_of doc.entry holder)))) place.old place.new }
{
    for list in revocation_lists(doc, holder) {
        add_list(place, doc, list);
    }
}

fn add_list(place: &mut FirstPlace, doc: Doc<'_>, list: NodeId)
    requires within { IsWithin doc place.old }
    requires there { IsThere doc list }
    ensures { Adds doc.entry (without_value (document_in doc.entry) (called_in (document_in doc.entry) (xades (codes "EncapsulatedCRLValue")) (spot_or_none doc.entry (Some list)))) place.old place.new }
{
    place.add_each_without_value(doc, called(doc, list, xades("EncapsulatedCRLValue")));
}

// Those of the transforms of References that hold stray text.
fn add_transforms(place: &mut FirstPlace, doc: Doc<'_>, signature: NodeId)
    requires within { IsWithin doc place.old }
    requires has { Has doc signature }
    ensures { Adds doc.entry (transform_faults (document_in doc.entry) (references (document_in doc.entry) (spot_of doc.entry signature))) place.old place.new }
{
    for reference in references(doc, signature) {
        add_transforms_of(place, doc, reference);
    }
}

fn add_transforms_of(place: &mut FirstPlace, doc: Doc<'_>, reference: NodeId)
    requires within { IsWithin doc place.old }
    requires there { IsThere doc reference }
    ensures { Adds doc.entry (transform_faults (document_in doc.entry) (spot_or_none doc.entry (Some reference))) place.old place.new }
{
    for list in transform_lists(doc, reference) {
        add_transforms_in(place, doc, list);
    }
}

fn add_transforms_in(place: &mut FirstPlace, doc: Doc<'_>, list: NodeId)
    requires within { IsWithin doc place.old }
    requires there { IsThere doc list }
    ensures { Adds doc.entry (transforms_faults (document_in doc.entry) (spot_or_none doc.entry (Some list))) place.old place.new }
{
    place.add_each_with_stray_text(doc, called(doc, list, ds("Transform")));
}
