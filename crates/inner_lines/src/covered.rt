//! The Reference that covers the signed properties.

ghost use Rattle.std.specs.Prelude.{◌≡◌, ◌||◌, IfSome, codes, filter, flat_map, not};
ghost use Rattle.doc_spans.specs.Pieces.{characters_left};
ghost use Rattle.doc_spans.specs.Seen.{Has, document_in};
ghost use Rattle.document_model.specs.Characters.{◌is◌};
ghost use Rattle.signature_elements.specs.Standing.{spot_of, spot_or_none, IsThere};
ghost use Rattle.signature_model.specs.Parts.{transforms};
ghost use Rattle.signature_model.specs.Shape.{covered_line, is_reaching_out, points_to_one};
ghost use Rattle.signature_model.specs.Spots.{is_called, elements_in, paths};
ghost use Rattle.signature_model.specs.Vocabulary.{ds, enveloped_name, base64_name};
ghost use Rattle.inner_lines.specs.LineParts.{names_way_out};
ghost use Rattle.signature_parts.specs.Places.{Adds, IsFirst, IsWithin};

use crate::typed::{add_typed, next_typed};
use doc_spans::{Doc, NodeId, Pieces};
use signature_elements::{attribute, ds, elements, first_in, is_called, points_to};
use signature_parts::{FirstPlace, references, signed_info, signed_properties, transform_lists};

/// The algorithm of the enveloped signature transform.
const ENVELOPED: &str = "http://www.w3.org/2000/09/xmldsig#enveloped-signature";

/// The algorithm of the base64 transform.
const BASE64: &str = "http://www.w3.org/2000/09/xmldsig#base64";

/// The signed properties are covered by the one Reference with their Type, which points to their Id and reaches them as they stand
/// (EN 319 132-1, clause 4.4).
pub fn covered_line(doc: Doc<'_>, signature: NodeId) -> FirstPlace
    requires { Has doc signature }
    ensures { IsFirst doc.entry (covered_line (document_in doc.entry) (spot_of doc.entry signature)) result }
{
    let mut place = FirstPlace::none();
    add_faults(&mut place, doc, signature);
    place
}

fn add_faults(place: &mut FirstPlace, doc: Doc<'_>, signature: NodeId)
    requires within { IsWithin doc place.old }
    requires has { Has doc signature }
    ensures { Adds doc.entry (covered_line (document_in doc.entry) (spot_of doc.entry signature)) place.old place.new }
{
    let mut references = references(doc, signature);
    match next_typed(doc, &mut references) {
        Some(reference) => {
            add_typed(place, doc, references);
            let points = points_to_one(doc, signed_properties(doc, signature), reference);
            place.add_where(doc, reference, !points);
            add_reaching_out(place, doc, reference);
        }
        None => place.add_part(
            doc,
            first_in(doc, signed_info(doc, signature), ds("Reference")),
        ),
    }
}

// Whether a Reference points to the signed properties, if they exist. One without URI is for another line.
fn points_to_one(doc: Doc<'_>, properties: Option<NodeId>, reference: NodeId) -> bool
    requires properties { IfSome properties (IsThere doc) }
    requires there { IsThere doc reference }
    ensures { result ≡ points_to_one (spot_or_none doc.entry properties) (spot_of doc.entry reference) }
{
    match properties {
        Some(node) => points_to_element(doc, node, reference),
        None => true,
    }
}

fn points_to_element(doc: Doc<'_>, node: NodeId, reference: NodeId) -> bool
    requires node { IsThere doc node }
    requires there { IsThere doc reference }
    ensures { result ≡ points_to_one (spot_or_none doc.entry (Some node)) (spot_of doc.entry reference) }
{
    match attribute(doc, reference, "URI") {
        Some(uri) => points_to(Some(uri), attribute(doc, node, "Id")),
        None => true,
    }
}

// The transforms of a Reference that lead away from the elements as they stand.
fn add_reaching_out(place: &mut FirstPlace, doc: Doc<'_>, reference: NodeId)
    requires within { IsWithin doc place.old }
    requires there { IsThere doc reference }
    ensures { Adds doc.entry (paths (filter is_reaching_out (transforms (document_in doc.entry) (spot_of doc.entry reference)))) place.old place.new }
{
    for list in transform_lists(doc, reference) {
        add_reaching_out_in(place, doc, list);
    }
}

fn add_reaching_out_in(place: &mut FirstPlace, doc: Doc<'_>, list: NodeId)
    requires within { IsWithin doc place.old }
    requires there { IsThere doc list }
    ensures { Adds doc.entry (paths (filter is_reaching_out (elements_in (document_in doc.entry) (spot_of doc.entry list)))) place.old place.new }
{
    for transform in elements(doc, list) {
        place.add_where(doc, transform, is_reaching_out(doc, transform));
    }
}

fn is_reaching_out(doc: Doc<'_>, transform: NodeId) -> bool
    requires { IsThere doc transform }
    ensures { result ≡ is_reaching_out (spot_of doc.entry transform) }
{
    is_transform(doc, transform) && names_way_out(doc, transform)
}

fn is_transform(doc: Doc<'_>, transform: NodeId) -> bool
    requires { IsThere doc transform }
    ensures { result ≡ is_called (ds (codes "Transform")) (spot_of doc.entry transform) }
{
    is_called(doc, transform, ds("Transform"))
}

// Whether the algorithm is one of the two.
fn names_way_out(doc: Doc<'_>, transform: NodeId) -> bool
    requires { IsThere doc transform }
    ensures { result ≡ names_way_out (spot_of doc.entry transform) }
{
    match attribute(doc, transform, "Algorithm") {
        Some(name) => is_way_out(name),
        None => false,
    }
}

fn is_way_out(name: Pieces<'_>) -> bool
    ensures { result ≡ ((characters_left name.entry is enveloped_name) || (characters_left name.entry is base64_name)) }
{
    is_enveloped(name) || is_base64(name)
}

fn is_enveloped(name: Pieces<'_>) -> bool
    ensures { result ≡ (characters_left name.entry is enveloped_name) }
{
    name.same(ENVELOPED)
}

fn is_base64(name: Pieces<'_>) -> bool
    ensures { result ≡ (characters_left name.entry is base64_name) }
{
    name.same(BASE64)
}
