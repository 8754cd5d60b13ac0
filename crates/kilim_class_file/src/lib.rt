//! Class files (JVMS chapter 4), read and written exactly.
//!
//! What was read is written in the same bytes: entries of the pool that nothing names, attributes that aren't read into
//! parts, and the forms of frames are kept.
#![tactic(auto)]

mod class_file;
mod fault;
mod members;
mod reading;
mod writing;

pub use class_file::{ClassFile, MemberInfo};
pub use fault::{ClassFault, MemberName};
pub use reading::{class_file_is_spelled, faults_are_true, read};
pub use writing::write;
