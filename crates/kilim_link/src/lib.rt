//! Class files to a program.
#![tactic(auto)]

mod laws;
mod linking;

pub use laws::{links_keep, no_fault_is_a_program};
pub use linking::link;
