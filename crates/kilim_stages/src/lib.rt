//! From the bytes of class files to an accepted program, or to the report of the first stage that has a fault: reading,
//! linking, typing, and the rules of isolation and pausing.
#![tactic(auto)]

mod classes;
mod counts;
mod laws;
mod refusal;
mod stages;
pub mod woven_stage;

pub use counts::coded_methods;
pub use laws::{accepted_runs_apart, never_both, never_typed_and_reported, one_program_of};
pub use refusal::Refusal;
pub use stages::{accepted, typed_program};
