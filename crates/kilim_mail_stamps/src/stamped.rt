//! Entries with stamps.

use kilim_program::BoxName;
use kilim_run_journal::Entry;

/// An entry, with its stamp.
#[derive(Drop)]
pub struct Stamped {
    /// The clocks of its task, and of its mailbox or of the register of starts, are at this number right after it.
    pub stamp: u64,
    /// Where the entry is the end of a task that put into a full mailbox: that mailbox, which the entry doesn't name.
    pub full: Option<BoxName>,
    /// The entry.
    pub entry: Entry,
}
