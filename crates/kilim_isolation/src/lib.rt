//! The isolation rules over all paths of a program.
#![tactic(auto)]

mod check;
mod exits;
mod first;
mod flow;
mod isolated;
mod laws;
mod machine;
mod mark;
mod merge;
mod paths;
mod shape;
mod tables;
mod walk;

pub use check::all_reports;
pub use exits::exits_of;
pub use flow::{to_handler, transfer};
pub use isolated::{CheckFault, Isolated, check_program};
pub use kilim_isolation_pauses::Report;
pub use laws::{accepted_goes_on, examples_hold};
pub use machine::Walk;
pub use mark::{MARK_FACTOR, mark_of};
pub use merge::{append, merged};
pub use paths::{KIND_MIXED, SHAPE_LIMIT};
pub use shape::Shape;
pub use tables::{code_table, declared_by, fetch, frame_by, frame_table};
pub use walk::{exits_at, step, whole};
