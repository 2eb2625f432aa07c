//! Cases for tests and benches: a policy that trusts one certificate, and objects that are put into a case by their octets.
#![tactic(auto)]

mod fault;
mod parts;
mod policy;
mod signed_anew;
mod stamps;
mod times;

pub use fault::CaseFault;
pub use parts::{put_certificate, put_list};
pub use policy::{policy_of, trusting};
pub use signed_anew::{certificate_anew, list_anew, token_anew};
pub use stamps::{put_stamp, put_token};
pub use times::earliest_times;
