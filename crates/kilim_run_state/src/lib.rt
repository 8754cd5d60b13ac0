//! What a run works on: a task's heap of objects, the shapes of trees, why a task ends, and the limits of a run.
//!
//! `specs/` says what a heap of objects and the frames of a task are, and what a tree of objects is. What an instruction does stands in kilim_run_machine.
#![tactic(auto)]

mod cause;
pub mod frames;
mod heap;
mod run;
mod value;

pub use cause::EndCause;
pub use heap::Heap;
pub use run::Limits;
pub use value::{Object, Shape, Token};
