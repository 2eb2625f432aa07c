//! A made-up world of keys that sign, for tests and for the command `sample`: real HSS, XMSS
//! and XMSS^MT signatures whose every octet follows from a seed. No key of it is secret.
#![tactic(auto)]

mod certificates;
mod der_parts;
mod lists;
mod lms_trees;
mod moments;
mod nodes;
mod secrets;
mod tokens;
mod world;
mod xmss_trees;
mod xmssmt_trees;

pub use certificates::Role;
pub use world::{World, WorldFault};
