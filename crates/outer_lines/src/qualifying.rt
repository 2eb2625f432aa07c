//! Where the qualifying properties stand, and what they point to (EN 319 132-1, clauses 4.3.1 and 4.4).

ghost use Rattle.std.specs.Prelude.{◌≡◌, [], ◌∷◌, codes, drop, IfSome};
ghost use Rattle.doc_spans.specs.Seen.{Has, document_in, path_in};
ghost use Rattle.signature_elements.specs.Standing.{spot_of, spot_or_none, IsThere};
ghost use Rattle.signature_model.specs.Spots.{attribute, paths};
ghost use Rattle.signature_model.specs.Holding.{with_stray_text};
ghost use Rattle.signature_model.specs.Parts.{objects, qualifying_objects};
ghost use Rattle.signature_model.specs.Shape.{qualifying_line, id_of, or_first, points_to};
ghost use Rattle.outer_lines.specs.LineParts.{without_holder, pointing_elsewhere};
ghost use Rattle.signature_parts.specs.Places.{Adds, IsFirst, IsWithin};
ghost use Rattle.signature_parts.specs.QualifyingLeft.{qualifying_doc, qualifying_left};

use doc_spans::{Doc, NodeId};
use signature_elements::{attribute, points_to, xades};
use signature_parts::{
    FirstPlace, QualifyingObjects, first_qualifying_object, objects, qualifying,
};

/// The first fault of where the qualifying properties stand: one of them in one of the Objects, pointing by its Target to the signature's
/// Id.
pub fn qualifying_line(doc: Doc<'_>, signature: NodeId) -> FirstPlace
    requires { IsThere doc signature }
    ensures { IsFirst doc.entry (qualifying_line (document_in doc.entry) (spot_of doc.entry signature)) result }
{
    let holder = first_qualifying_object(doc, signature);
    let properties = qualifying(doc, signature);
    let mut places = FirstPlace::none();
    add_stray_holders(&mut places, doc, signature);
    add_without_holder(&mut places, doc, signature);
    add_further_holders(&mut places, doc, signature);
    places.add_further(doc, xades("QualifyingProperties"), holder);
    places.add_without_attribute(doc, "Id", Some(signature));
    places.add_without_attribute(doc, "Target", properties);
    add_pointing_elsewhere(&mut places, doc, signature, properties);
    places
}

fn add_stray_holders(places: &mut FirstPlace, doc: Doc<'_>, signature: NodeId)
    requires within { IsWithin doc places.old }
    requires signature { Has doc signature }
    ensures { let document = document_in doc.entry in
        Adds doc.entry (with_stray_text document (qualifying_objects document (spot_of doc.entry signature))) places.old places.new }
{
    for object in QualifyingObjects::of(doc, signature) {
        places.add_with_stray_text(doc, Some(object));
    }
}

// Where no object holds qualifying properties: the first object, or else the signature.
fn add_without_holder(places: &mut FirstPlace, doc: Doc<'_>, signature: NodeId)
    requires within { IsWithin doc places.old }
    requires signature { Has doc signature }
    ensures { Adds doc.entry (without_holder (document_in doc.entry) (spot_of doc.entry signature)) places.old places.new }
{
    let is_missing = first_qualifying_object(doc, signature).is_none();
    places.add_where(doc, first_object_or(doc, signature), is_missing);
}

// The first object of a signature, or else the signature.
fn first_object_or(doc: Doc<'_>, signature: NodeId) -> NodeId
    requires { Has doc signature }
    ensures place { let spot = spot_of doc.entry signature in
        path_in doc.entry result ∷ [] ≡ or_first (objects (document_in doc.entry) spot) spot }
    ensures has { Has doc.entry result }
{
    match objects(doc, signature).next() {
        Some(object) => object,
        None => signature,
    }
}

fn add_further_holders(places: &mut FirstPlace, doc: Doc<'_>, signature: NodeId)
    requires within { IsWithin doc places.old }
    requires signature { Has doc signature }
    ensures { let holders = qualifying_objects (document_in doc.entry) (spot_of doc.entry signature) in
        Adds doc.entry (paths (drop 1 holders)) places.old places.new }
{
    let mut holders = QualifyingObjects::of(doc, signature);
    if holders.next().is_some() {
        add_all(places, doc, holders);
    }
}

fn add_all(places: &mut FirstPlace, doc: Doc<'_>, holders: QualifyingObjects<'_>)
    requires within { IsWithin doc places.old }
    requires same { qualifying_doc holders ≡ doc }
    ensures { Adds doc.entry (paths (qualifying_left holders.entry)) places.old places.new }
{
    for holder in holders {
        places.add(doc, holder);
    }
}

// The qualifying properties, where their Target isn't `#` and the signature's Id.
fn add_pointing_elsewhere(
    places: &mut FirstPlace,
    doc: Doc<'_>,
    signature: NodeId,
    properties: Option<NodeId>,
)
    requires within { IsWithin doc places.old }
    requires signature { IsThere doc signature }
    requires properties { IfSome properties (IsThere doc) }
    ensures { Adds doc.entry (pointing_elsewhere (spot_of doc.entry signature) (spot_or_none doc.entry properties)) places.old places.new }
{
    if let Some(node) = properties {
        let is_elsewhere = !is_target(doc, signature, node);
        places.add_where(doc, node, is_elsewhere);
    }
}

fn is_target(doc: Doc<'_>, signature: NodeId, properties: NodeId) -> bool
    requires signature { IsThere doc signature }
    requires properties { IsThere doc properties }
    ensures { result ≡ points_to (attribute (codes "Target") (spot_of doc.entry properties)) (id_of (spot_of doc.entry signature)) }
{
    points_to(
        attribute(doc, properties, "Target"),
        attribute(doc, signature, "Id"),
    )
}
