//! Answers of the type verifier and of the isolation rules, for a table of cases: README.md has them, and the program kilim_cases runs them.

mod cases;
mod edges;
mod fits;
mod graphs;
mod lives;
mod names;

pub use crate::cases::answer;
pub use cases::checked_case;
