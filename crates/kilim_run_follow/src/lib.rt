//! Fibers that follow a journal: each entry is made again by its task, as long as that is so, and the run can go on from there.
#![tactic(auto)]

mod following;
mod lending;
mod resuming;
mod steps;

pub use following::{Followed, follow};
pub use resuming::{Resumed, resume_one, resume_pool};
