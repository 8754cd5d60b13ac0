//! What is counted at both ends: where a task's history lies, and where its entries were noted. Only clauses read it.

use kilim_program::BoxName;
use kilim_run_model::{Beginning, Deed};

/// A deed of a task, with its stamp.
#[derive(Drop)]
pub struct Dated {
    /// The stamp of its entry.
    pub stamp: u64,
    /// Where the deed is an end at a full mailbox: that mailbox.
    pub full: Option<BoxName>,
    /// What the task did.
    pub deed: Deed,
}

/// A part of a task's history.
#[derive(Drop)]
pub enum Item {
    /// The task of that number began, with that stamp.
    Born(u32, u64, Beginning),
    /// It did this.
    Did(u32, Dated),
}
