//! Code arrays (JVMS 4.7.3 and 4.9), read and written exactly.
//!
//! A code array is instruction behind instruction. The targets of its jumps and switches are places of its
//! instructions, and control doesn't go on past the last one. A place is a byte offset from the code's start.
#![tactic(auto)]

mod body;
mod fault;
mod laws;
mod marks;
pub mod opcodes;
mod reading;
mod writing;

pub use body::Body;
pub use fault::CodeFault;
pub use laws::{one_code, one_fault, targets_are_places};
pub use reading::decode;
pub use writing::encode;
