//! The earliest times at which the objects of a signature are proved to have existed.
#![tactic(auto)]

mod asking;
mod case;
mod judging;
mod orders;
mod rounds;
mod rows;

pub use asking::{earliest_by, is_stamp_accepted};
pub use case::{Case, earliest};
pub use orders::in_order;
