//! X.509 certificates and CRLs of the profile in `docs/`, read in place: no copy is made and no memory is taken.
#![tactic(auto)]

mod certificate;
mod crl;
mod extensions;
mod fault;
mod fields;
mod layouts;
mod part;

pub use certificate::{Certificate, read_certificate, whole_certificate};
pub use crl::{Crl, read_crl, whole_crl};
pub use extensions::first_named;
pub use fault::CertFault;
pub use fields::{algorithm_name, has_tag, tagged, time_at};
pub use layouts::{ALGORITHM, CERTIFICATE};
pub use part::{Part, split_data};
