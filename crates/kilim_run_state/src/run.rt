//! What bounds a run.

use kilim_units::Seq;

/// What a run is given beside its program and main class.
#[derive(Drop)]
pub struct Limits {
    /// How many of its own instructions a task may do.
    pub steps: u64,
    /// The numbers of the command line, which `kilim/Sys.arg` gives.
    pub args: Seq<i32>,
}
