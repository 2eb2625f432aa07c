//! Pools of certificates and CRLs, and walks from a certificate to a trust anchor.
#![tactic(auto)]

mod accepting;
mod chart;
mod completing;
mod facts;
mod find;
mod gather;
mod links;
mod object;
mod place;
mod pool;
mod reaching;
mod relations;
mod rows;
mod search;
mod status;
mod table;
mod times;

pub use accepting::accepted;
pub use completing::complete;
pub use facts::{is_kind_accepted, kind_named};
pub use links::Links;
pub use object::ObjectId;
pub use pool::Pool;
pub use times::Times;
