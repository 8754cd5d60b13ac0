//! Woven programs.

use kilim_program::Program;
use kilim_units::Seq;

/// A woven program, and which of its instructions count.
#[derive(Drop)]
pub struct Woven {
    pub program: Program,
    /// For each method, for each of its instructions, whether it counts as one of the task's own.
    pub counted: Seq<Seq<bool>>,
}
