//! The parts of a signature (XML Signature 1.1, section 4; EN 319 132-1, clauses 4.3 and 5): where each stands, and what an element has to
//! hold.
#![tactic(auto)]

mod holding;
mod kinds;
mod lists;
mod object_elements;
mod octets;
mod part_lists;
mod parts;
mod places;
mod several;
mod slots;
mod stamp_elements;
mod transforms;

pub use kinds::{
    PropertyKind, is_certificate_values, is_revocation_values, is_stamp, is_validation_data,
    is_values, kind_of,
};
pub use lists::{ElementsIn, NamedIn};
pub use object_elements::{QualifyingObjects, first_qualifying_object, is_qualifying, objects};
pub use octets::has_octets;
pub use part_lists::{is_typed, key_data, properties, references};
pub use parts::{
    certificate, certificate_digest, digest_method, digest_value, key_info, method, qualifying,
    signature_method, signed_data_properties, signed_info, signed_properties,
    signed_signature_properties, signing_certificate_property, signing_time, stamp_method,
    token_element, transform_list, unsigned, unsigned_signature, value,
};
pub use places::FirstPlace;
pub use slots::Slot;
pub use stamp_elements::StampElements;
pub use transforms::transform_lists;
