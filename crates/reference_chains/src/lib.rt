//! What a Reference of a signature names and what is made of it: its target, its chain of transforms, its digest method, its nodes and
//! its octets (XML Signature 1.1, section 4.4.3).
#![tactic(auto)]

mod chains;
mod decoding;
mod digest_methods;
mod externals;
mod faults;
mod handing;
mod octets;
mod places;
mod references;
mod set_texts;
mod takers;
mod transforms;

pub use chains::{Chain, Made, chain_of};
pub use digest_methods::digest_kind_of;
pub use externals::Externals;
pub use faults::base64_fault;
pub use handing::handed_to;
pub use octets::octets_of;
pub use places::{Place, place_named, place_of, uri_of};
pub use references::{Reference, is_reached, node_set_of, target_set};
