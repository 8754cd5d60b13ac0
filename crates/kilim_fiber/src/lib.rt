//! Fibers that keep records while they rest: a task on a heap of its own, which runs woven code.
#![tactic(auto)]

mod fiber;
pub mod named;
mod past;

pub use fiber::Fiber;
