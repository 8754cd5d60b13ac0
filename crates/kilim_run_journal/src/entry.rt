//! What the journal of a run is made of.

use kilim_program::BoxName;
use kilim_run_state::{EndCause, Shape};

/// One event of a run.
#[derive(Drop)]
pub enum Act {
    /// A message was put into a mailbox: the mailbox, the number of the put there, from 0, and the
    /// message's shape.
    Put(BoxName, u64, Shape),
    /// A message was taken out of a mailbox: the mailbox, and the number of the put.
    Take(BoxName, u64),
    /// A mailbox was asked for a message without waiting, and was empty.
    Empty(BoxName),
    /// A task was started: its number, and the shape of the task object.
    Start(u32, Shape),
    /// A value was printed: its shape, of one token.
    Print(Shape),
    /// The task ended.
    End(EndCause),
    /// The run is over, and the task waits at this mailbox.
    Wait(BoxName),
    /// A mailbox got a bound: the mailbox, and how many messages it may hold. No run has this entry: mailboxes have no
    /// bound yet.
    Bound(BoxName, u32),
}

/// An event, with the task whose event it is.
#[derive(Drop)]
pub struct Entry {
    /// The number of the task.
    pub task: u32,
    /// What it did.
    pub act: Act,
}
