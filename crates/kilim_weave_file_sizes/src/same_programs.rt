//! Whether two programs are equal.

mod instrs;
mod lists;
mod members;
mod parts;
mod programs;

pub use programs::same_programs;
