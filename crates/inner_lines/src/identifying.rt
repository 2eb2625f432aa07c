//! Whether a Reference points to KeyInfo.

ghost use Rattle.std.specs.Prelude.{◌≡◌, [], IfSome, option_map, unwrap_or};
ghost use Rattle.std.specs.List.{list_any};
ghost use Rattle.document_model.specs.Characters.{◌is◌};
ghost use Rattle.xml_items.specs.Attributes.{attribute_in, attributes_left};
ghost use Rattle.doc_spans.specs.Pieces.{characters_left};
ghost use Rattle.signature_elements.specs.Standing.{spot_of, spot_or_none, IsThere};
ghost use Rattle.signature_model.specs.Shape.{is_identifying};
ghost use Rattle.signature_model.specs.Parts.{uri};
ghost use Rattle.signature_model.specs.Spots.{attributes_in};
ghost use Rattle.signature_model.specs.Vocabulary.{fragment};

use doc_spans::{Doc, NodeId, Pieces};
use node_sets::is_identifier_name;
use signature_elements::{attribute, points_to};
use xml_items::attribute_walk::{Attribute, Attributes};
use xml_items::texts::is_empty;
use xml_items::value_texts::is_empty_value;

/// Whether a Reference points to the `KeyInfo` of a signature, by `#` and an identifier of it.
pub(crate) fn is_to_key_info(doc: Doc<'_>, key: Option<NodeId>, reference: NodeId) -> bool
    requires key { IfSome key (IsThere doc) }
    requires there { IsThere doc reference }
    ensures { result ≡ list_any (λ spot. list_any (is_identifying (uri (spot_of doc.entry reference))) (attributes_in spot.tags)) (spot_or_none doc.entry key) }
{
    match key {
        Some(node) => is_identified(doc, node, attribute(doc, reference, "URI")),
        None => false,
    }
}

// Whether a URI points to an element.
fn is_identified(doc: Doc<'_>, node: NodeId, uri: Option<Pieces<'_>>) -> bool
    requires { IsThere doc node }
    ensures { result ≡ list_any (is_identifying (unwrap_or (option_map characters_left uri.entry) [])) (attributes_in (spot_of doc.entry node).tags) }
{
    match doc.open_tag(node) {
        Some(tag) => is_any_identifying(Attributes::of(tag.attributes), uri),
        None => false,
    }
}

fn is_any_identifying(attributes: Attributes<'_>, uri: Option<Pieces<'_>>) -> bool
    ensures { result ≡ list_any (is_identifying (unwrap_or (option_map characters_left uri.entry) [])) (attributes_left attributes.entry) }
{
    let mut rest = attributes;
    'attributes: loop {
        match rest.first() {
            Some((a, behind)) => {
                if is_identifying(a, uri) {
                    return true;
                }
                rest = behind;
            }
            None => return false,
        }
    }
}

fn is_identifying(a: Attribute<'_>, uri: Option<Pieces<'_>>) -> bool
    ensures { result ≡ is_identifying (unwrap_or (option_map characters_left uri.entry) []) (attribute_in a.entry) }
{
    is_empty(a.prefix) && !is_empty_value(a.value) && is_pointed_to(a, uri) && is_identifier_name(a)
}

// Whether a URI is `#` and the value of an attribute.
fn is_pointed_to(a: Attribute<'_>, uri: Option<Pieces<'_>>) -> bool
    ensures { result ≡ (unwrap_or (option_map characters_left uri.entry) [] is fragment (attribute_in a.entry).value) }
{
    points_to(uri, Some(Pieces::of_value(a.value)))
}
