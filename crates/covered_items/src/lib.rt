//! What an item adds to what a signature covers: a value the octets that were to be signed, a time-stamp the octets that were to be stamped
//! next, validation data nothing.
//!
//! The definitions stand in `specs/`. The function has an empty body, and its contract is the law, on trees of documents.
#![tactic(auto)]

ghost use Rattle.covered_items.specs.Entries.{ItemCoversTheNextOctets};

/// Where a signature takes an item, it covers what it covered before, and behind that just what the item is over: the octets that the
/// definitions of signature_model have signed or stamped next. It holds for items whose octets are bytes; a value must have an octet.
pub fn item_covers_the_next_octets()
    ensures { ItemCoversTheNextOctets }
{}
