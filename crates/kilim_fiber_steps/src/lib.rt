//! The interpreter on a program with a mark for each instruction: many steps, of which the marked ones count.
#![tactic(auto)]

mod members;
mod places;
pub mod records;
mod runs;

pub use members::do_member;
pub use places::Places;
pub use runs::{CountedRun, Halted, run_counted};
