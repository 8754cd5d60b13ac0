//! Answers of the top call, for a table of cases: README.md has them, and the program kilim_cases runs them.
#![tactic(auto)]

mod calls;
mod cases;
mod folder;
mod gates;
mod left;
mod sink;
mod sorted;
mod world;

pub use cases::answer;
