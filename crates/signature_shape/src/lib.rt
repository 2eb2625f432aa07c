//! The shape of a signature: the first fault over all lines, which say what its elements have to hold.
#![tactic(auto)]

mod faults;
mod first_faults;
mod what;

pub use faults::ShapeFault;
pub use first_faults::first_fault;
pub use what::What;
