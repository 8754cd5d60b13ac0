//! The interpreter: instructions of a task, with all of its frames.
#![tactic(auto)]

mod catching;
pub mod instruction;
mod machine;

pub use catching::{index_name, raise_at, raise_behind, raised_class, throw};
pub use machine::{MOST_FRAMES, NativeCall, Stepped, await_answer, new_frame, settle};
