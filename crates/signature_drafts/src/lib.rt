//! A draft of a signature, and the signature that is prepared from it, as text: XML Signature 1.1, section 3.1; EN 319 132-1, clauses 4.3,
//! 4.4 and 5.2.
#![tactic(auto)]

mod draft;
mod key_info;
mod methods;
mod pieces;
mod properties;
mod references;
mod signature;
mod standing;
mod uris;

pub use draft::Draft;
pub use pieces::put_base64;
pub use properties::properties_text;
pub use signature::{Digests, put_signature};
