//! One thread of a plain program, up to its next action, on a heap that it may share: every instruction counts, and nothing is removed.
#![tactic(auto)]

mod advance;
mod asks;
mod begin;
mod operands;
mod pass;
mod raising;
mod runs;
mod task;

pub use advance::reach;
pub use begin::{first_world, task_frames};
pub use pass::{go_on, go_on_with};
pub use runs::{Halted, Ran, run_thread, runs_are_quiet};
pub use task::{Came, Live, World};
