//! Which nodes of a document stand under which texts: indices that are filled once and then asked, so that nothing is looked for by going
//! through the document again.
#![tactic(auto)]

mod identifiers;
mod indices;
mod sightings;
mod texts;

pub use identifiers::Identifiers;
pub use indices::NodeIndex;
pub use sightings::Sightings;
pub use texts::{fragment, gathered};
