//! Answers of the public calls on class files and of linking, for a table of cases: README.md has them, and the program kilim_cases runs them.
#![tactic(auto)]

mod cases;
pub mod check_tables;
pub mod class_builder_tables;
mod classes;
mod code;
mod descriptors;
mod links;
mod pools;
mod shown;

pub use cases::answer;
