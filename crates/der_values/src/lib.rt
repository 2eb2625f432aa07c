//! DER: elements, the values of simple kinds, times, and layouts of whole objects (X.690). Nothing is copied and no memory is taken.
#![tactic(auto)]

mod content;
mod distinct;
mod elements;
mod kinds;
mod layout;
mod length;
mod oids;
mod rules;
mod times;
mod tlv;

pub use elements::{Elements, elements_of, has_octets, named, with_tag};
pub use kinds::{bit_string, count, integer, oid};
pub use layout::{Layout, check};
pub use oids::KnownOid;
pub use rules::{Rule, Test, element, part, piece};
pub use times::{plain_seconds, seconds};
pub use tlv::{DerFault, Tlv, read_tlv};
