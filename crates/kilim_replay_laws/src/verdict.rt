//! What is said of a journal.

use kilim_run_journal::Entry;

/// What is said of a journal. Lines are counted from 1.
#[derive(Drop)]
pub enum Verdict {
    /// It is that of a whole run.
    Whole,
    /// The task of that line isn't there.
    Absent(usize),
    /// It has ended.
    Ended(usize),
    /// It stands where it has to wait.
    Waits(usize),
    /// It makes this other entry.
    Made(usize, Entry),
    /// All entries were replayed, but that task isn't at rest; the line is the one behind them.
    Goes(usize, u32),
    /// All rest, and that is the first line that isn't that of a task that waits.
    Rest(usize),
}
