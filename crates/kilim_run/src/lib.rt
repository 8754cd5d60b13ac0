//! Whole runs of an accepted program, by its woven form: its journal. A run may be stopped, and go on from its journal.
#![tactic(auto)]

mod going_on;
mod named;
mod runs;

pub use going_on::{resume_alone, resume_with, run_until};
pub use kilim_run_follow::Resumed;
pub use runs::{run_alone, run_with};
