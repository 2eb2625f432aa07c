//! A signature that has taken an item is read again and free again, whatever the item.
//!
//! The definitions stand in `specs/`. Each function here has an empty body, and its contract is a law, on trees of documents.
#![tactic(auto)]

ghost use Rattle.attached_items.specs.ReadAgain.{ItemHasPartsAgain, ItemIsReadAgain, PlacesAreElements, ValueIsCoveredAlone};

/// A signature with parts that takes a whole item (a value, a signature time-stamp, certificates with revocation lists, an archive
/// time-stamp) has its parts again and is free again. Other signatures of the document, of whatever kind, change nothing in this.
pub fn item_has_parts_again()
    ensures { ItemHasPartsAgain }
{}

/// A document that is read with a free signature is read with the same signature, which is free again, once this has taken a whole item.
pub fn item_is_read_again()
    ensures { ItemIsReadAgain }
{}

/// Where a document has a signature, the place at which an item is put in is that of an element.
pub fn places_are_elements()
    ensures { PlacesAreElements }
{}

/// In a document without time-stamps a value is all that it adds to what the signature covers.
pub fn value_is_covered_alone()
    ensures { ValueIsCoveredAlone }
{}
