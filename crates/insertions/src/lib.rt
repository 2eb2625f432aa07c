//! Content that is put into an element of a document: what may be put in, what the new bytes are and what they spell; and a document that
//! is kept with its tree while content is put in.
#![tactic(auto)]

ghost use Rattle.insertions.specs.Content.{ContentIsSpelled};
ghost use Rattle.insertions.specs.Placed.{PlacedIsPut};
ghost use Rattle.insertions.specs.Sizes.{SizesAdd};

mod live;
mod pieces;
mod putting;

pub use live::{GraftFault, LiveDoc};
pub use pieces::{Insertions, apply};
pub use putting::{inside, put};

/// Where legal content is put into an element, the new bytes spell the old tree with the content as last children, where that is within the
/// limits on depth and nodes; else their fault tells which of the two it passes.
pub fn content_is_spelled()
    ensures { ContentIsSpelled }
{}

/// Content that is put into an element makes the tree as high as its own elements stand below it, and adds its nodes, less a text that joins.
pub fn sizes_add()
    ensures { SizesAdd }
{}

/// The pieces that put content into an element, put in at their places, give the document with the content in the element.
pub fn placed_is_put()
    ensures { PlacedIsPut }
{}
