//! What an image holds.

use kilim_run_journal::Entry;
use kilim_units::Seq;

/// Which run it is: what it was given, and its class files.
#[derive(Drop)]
pub struct Run {
    /// How many of its own instructions a task may do.
    pub steps: u64,
    /// The numbers of the command line.
    pub args: Seq<i32>,
    /// The name of the main class, in UTF-8.
    pub main: Seq<u8>,
    /// The bytes of the class files, in the order in which they are linked.
    pub files: Seq<Seq<u8>>,
}

/// A run that was stopped.
#[derive(Drop)]
pub struct Image {
    pub run: Run,
    /// What its tasks have done.
    pub journal: Vec<Entry>,
}
