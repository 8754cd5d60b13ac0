//! The top call of the program: from the words of the command line, through the files that they name, to the
//! text and the status.
#![tactic(auto)]

mod answer;
mod demo;
mod program;
mod runs;
mod top;
mod work;

pub use kilim_command::{DONE, NO_MEMORY, REPORTED, UNREAD, UNWRITTEN, USAGE};
pub use program::command;
pub use top::{kilim, kilim_alone, kilim_in_memory};
