//! The command `replay`: from the bytes of class files and of a journal to the line that says what is so of the journal.
#![tactic(auto)]

mod entries;
mod laws;
mod lines;
mod stage;

pub use kilim_stages::Refusal;
pub use laws::never_whole_and_reported;
pub use stage::replay_files;
