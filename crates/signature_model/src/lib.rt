//! Signatures: their parts, what they cover and what is put into them. The definitions that the contracts of the crates above cite, and
//! the laws that are proved of them.
//!
//! The definitions stand in `specs/`, one file a topic. Each function here has an empty body, and its contract is a law.
#![tactic(auto)]

ghost use Rattle.signature_model.specs.Agreeing.{FormsAgree, PlacesAreWithin, ReadTakesItem};
ghost use Rattle.signature_model.specs.Keeping.{PropertyKeepsCovers, ValueKeepsCovers, ItemKeepsCovers, ItemsKeepCovers, StaysFree, KeepsCounted, ItemKeepsCounted, KeepsSpots};

/// Content without identifiers that is put last into the host of a free signature leaves all that the signature covers: the list of what
/// it covers only goes on.
pub fn property_keeps_covers()
    ensures { PropertyKeepsCovers }
{}

/// Content without identifiers that is put into the empty `SignatureValue` of a free signature leaves what its References cover.
pub fn value_keeps_covers()
    ensures { ValueKeepsCovers }
{}

/// Each item (a value, a stamp, validation data, an archive stamp) that a signature may take leaves all that the signature covers.
pub fn item_keeps_covers()
    ensures { ItemKeepsCovers }
{}

/// So do several items, each put into the document that the earlier ones gave.
pub fn items_keep_covers()
    ensures { ItemsKeepCovers }
{}

/// A signature that has taken an item is free again.
pub fn signature_stays_free()
    ensures { StaysFree }
{}

/// Content put in below a signature leaves the list of the signatures that are counted.
pub fn counted_signatures_stay()
    ensures { KeepsCounted }
{}

/// So does each item that a signature takes: the signature is the only one that is counted, if it was.
pub fn item_keeps_counted()
    ensures { ItemKeepsCounted }
{}

/// An element keeps its path, its name, its attributes and its scope, whatever is put last into an element of the document.
pub fn elements_stay()
    ensures { KeepsSpots }
{}

/// The form that a method names is read in one way for signatures and for canonical texts.
pub fn forms_agree()
    ensures { FormsAgree }
{}

/// A document that is read has a signature that takes an item, where no place of it is covered, and it is signed or not as the item asks.
pub fn read_signature_takes_items()
    ensures { ReadTakesItem }
{}

/// The place that is told of a fault in base64 is at most the length of the document, or of the octets that are handed in.
pub fn places_are_within()
    ensures { PlacesAreWithin }
{}
