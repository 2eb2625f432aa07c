//! What stands against a time-stamp that is to be put into a signature (EN 319 132-1, clauses 5.3 and 5.5.2; RFC 3161).
#![tactic(auto)]

mod faults;
mod laws;
mod next_stamps;
mod orders;
mod soundness;
mod times;

pub use faults::{OrderFault, StampFault};
pub use laws::stamp_faults_are_one;
pub use next_stamps::{NextStamp, check_next, judge_next};
pub use orders::{has_stamp, order_fault};
pub use soundness::check_over;
pub use times::{later_time, time_after};
