//! All paths of a machine, by one search: the states that they reach, and the rules that they break.
//!
//! A machine has places, exits of each place, to a next place, to a handler, or out, and a step for a state at a place towards an exit, which gives the next state or
//! the number of a rule that it breaks (`specs/Paths.antt`). `explore` answers exactly the rules that are broken on some path,
//! each with a path that breaks it, or a place that too many states reach (`specs/Answer.antt`).
#![tactic(auto)]

mod found;
mod held;
mod machine;
mod meeting;
mod report;
mod search;
mod store;

pub use machine::{Exit, Moves, State};
pub use report::{Explored, Report, explore};
pub use search::MOST_STATES;
