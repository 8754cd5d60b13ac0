//! Answers of the public calls on journals and trees, for a table of cases: README.md has them, and the program kilim_cases runs them.

mod arrived;
mod cases;
mod drawn;
mod journals;
mod shared;
mod trees;

pub use cases::answer;
