//! `weave` writes woven class files: the woven file of a class file, or why there is none.
#![tactic(auto)]

mod code;
mod fault;
mod forms;
mod frames;
mod members;
mod needs;
mod weaving;

pub use fault::ApplyFault;
pub use kilim_weave_file_sizes::longest_text;
pub use weaving::apply;
