//! Unsigned properties with what is read of them.

ghost use Rattle.std.specs.Prelude.{◌≡◌, ◌∷◌, [], true, false, IfOk, OnOk, flat_map, map};
ghost use Rattle.doc_spans.specs.Seen.{document_in};
ghost use Rattle.signature_elements.specs.Standing.{spot_of, IsThere};
ghost use Rattle.signature_model.specs.Parts as model;
ghost use Rattle.signature_model.specs.Spots.{first};
ghost use Rattle.signature_parts.specs.Places.{Adds, IsWithin};
ghost use Rattle.qualifying_props.specs.Data.{bad_places};
ghost use Rattle.qualifying_props.specs.PartsOf.{AreProperties};
ghost use Rattle.qualifying_props.specs.Properties.{shown_property, IsOf};

use crate::kinds::DatumKind;
use crate::material::read_material;
use crate::values::read_datum;
use doc_spans::{Doc, NodeId};
use signature_parts::{FirstPlace, PropertyKind, is_stamp, kind_of, properties, token_element};
use std::alloc::Global;
use xa_io::{Octs, OutOfMemory};

// An unsigned property: the token of a time-stamp, and the certificates and CRLs of another one.
#[derive(Drop)]
pub(crate) struct Property {
    pub(crate) node: NodeId,
    pub(crate) kind: PropertyKind,
    pub(crate) token: Option<Octs>,
    pub(crate) parts: Vec<Octs>,
}

// The token of a time-stamp.
fn read_token(
    alloc: Global,
    doc: Doc<'_>,
    stamp: NodeId,
    bad: &mut FirstPlace,
) -> Result<Octs, OutOfMemory>
    requires within { IsWithin doc bad.old }
    requires there { IsThere doc stamp }
    ensures octets { IfOk result (λ octets. octets ≡ model.token (document_in doc.entry) (spot_of doc.entry stamp)) }
    ensures bad { OnOk result (Adds doc.entry (bad_places (document_in doc.entry) (model.as_kind model.Token (first (model.token_elements (document_in doc.entry) (spot_of doc.entry stamp))))) bad.old bad.new) }
{
    match token_element(doc, stamp) {
        Some(node) => read_datum(alloc, doc, DatumKind::Token, node, bad),
        None => Ok(Octs::new(alloc)),
    }
}

fn read_stamp(
    alloc: Global,
    doc: Doc<'_>,
    node: NodeId,
    bad: &mut FirstPlace,
) -> Result<Property, OutOfMemory>
    requires within { IsWithin doc bad.old }
    requires there { IsThere doc node }
    requires stamp { model.is_stamp (spot_of doc node) ≡ true }
    ensures read { IfOk result (λ property. IsOf doc.entry node (shown_property property)) }
    ensures bad { OnOk result (Adds doc.entry (bad_places (document_in doc.entry) (model.data_of (document_in doc.entry) (spot_of doc.entry node))) bad.old bad.new) }
{
    let token = read_token(alloc, doc, node, bad)?;
    Ok(Property {
        node,
        kind: kind_of(doc, node),
        token: Some(token),
        parts: Vec::new(alloc),
    })
}

fn read_other(
    alloc: Global,
    doc: Doc<'_>,
    node: NodeId,
    bad: &mut FirstPlace,
) -> Result<Property, OutOfMemory>
    requires within { IsWithin doc bad.old }
    requires there { IsThere doc node }
    requires other { model.is_stamp (spot_of doc node) ≡ false }
    ensures read { IfOk result (λ property. IsOf doc.entry node (shown_property property)) }
    ensures bad { OnOk result (Adds doc.entry (bad_places (document_in doc.entry) (model.data_of (document_in doc.entry) (spot_of doc.entry node))) bad.old bad.new) }
{
    let mut parts = Vec::new(alloc);
    read_material(alloc, doc, node, &mut parts, bad)?;
    Ok(Property {
        node,
        kind: kind_of(doc, node),
        token: None,
        parts,
    })
}

fn read_property(
    alloc: Global,
    doc: Doc<'_>,
    node: NodeId,
    bad: &mut FirstPlace,
) -> Result<Property, OutOfMemory>
    requires within { IsWithin doc bad.old }
    requires there { IsThere doc node }
    ensures read { IfOk result (λ property. IsOf doc.entry node (shown_property property)) }
    ensures bad { OnOk result (Adds doc.entry (bad_places (document_in doc.entry) (model.data_of (document_in doc.entry) (spot_of doc.entry node))) bad.old bad.new) }
{
    if is_stamp(doc, node) {
        return read_stamp(alloc, doc, node, bad);
    }
    read_other(alloc, doc, node, bad)
}

// The unsigned signature properties of a signature.
pub(crate) fn read_properties(
    alloc: Global,
    doc: Doc<'_>,
    signature: NodeId,
    bad: &mut FirstPlace,
) -> Result<Vec<Property>, OutOfMemory>
    requires within { IsWithin doc bad.old }
    requires there { IsThere doc signature }
    ensures read { IfOk result (λ found. AreProperties doc.entry (model.properties (document_in doc.entry) (spot_of doc.entry signature)) (map shown_property found.items)) }
    ensures bad { OnOk result (Adds doc.entry (bad_places (document_in doc.entry) (flat_map (model.data_of (document_in doc.entry)) (model.properties (document_in doc.entry) (spot_of doc.entry signature)))) bad.old bad.new) }
{
    let mut found = Vec::new(alloc);
    for node in properties(doc, signature) {
        let property = read_property(alloc, doc, node, bad)?;
        let Ok(_) = found.push(property) else {
            return Err(OutOfMemory);
        };
    }
    Ok(found)
}
