//! The parts of the top call and of the program that need no stage and no run: what the words ask for, the files that are read, the lines,
//! and a text in pieces.
#![tactic(auto)]

pub mod grammar;
mod help;
mod inputs;
mod line;
mod program;
mod report;
mod request;
mod run_text;
mod status;
mod writing;

pub use inputs::{read_all, read_asked};
pub use line::demo_line;
pub use program::{complain, own_text, show, words};
pub use report::{accepted_line, no_main, utf16_of};
pub use request::{Start, demo_number, start_of, workers_of};
pub use run_text::text_of_run;
pub use status::{DONE, NO_MEMORY, REPORTED, UNREAD, UNWRITTEN, USAGE};
pub use writing::write_all;
