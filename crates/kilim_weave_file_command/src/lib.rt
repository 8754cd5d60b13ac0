//! The command `weave`: from the bytes of class files to the files that are to be written, with their paths, and the lines of text.
#![tactic(auto)]

mod laws;
mod weaving;
pub mod woven_files;

pub use crate::woven_files::Refusal;
pub use laws::{accepted_files_are_isolated, never_weavable_and_reported};
pub use weaving::{WeaveOutput, weave_files};
