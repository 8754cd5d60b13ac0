//! The frames of a task's calls (JVMS 2.6).

mod frame;
mod frames;
mod stack;

pub use frame::{Frame, Locals, no_frame};
pub use frames::{Callers, Frames};
pub use stack::Stack;
