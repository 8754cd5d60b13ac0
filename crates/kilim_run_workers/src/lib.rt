//! The workers.
#![tactic(auto)]

mod many_workers;
pub mod one_worker;
mod run;
mod worker;

pub use many_workers::{go_on, run_pool};
pub use run::{Run, RunBoard};
