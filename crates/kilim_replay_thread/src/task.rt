//! A task, what all tasks share, and what a task comes to.

use kilim_program::BoxName;
use kilim_run_state::frames::Frames;
use kilim_run_state::{EndCause, Heap, Shape};

/// What all tasks share.
#[derive(Drop)]
pub struct World {
    /// The one heap, from which nothing is removed.
    pub heap: Heap,
    /// The next object's name, which is its place.
    pub next: u32,
    /// The object of task 0, until its `execute` begins.
    pub kept: Option<u32>,
}

/// A task that hasn't ended.
#[derive(Drop)]
pub struct Live {
    /// Its frames; none where `execute` is built in.
    pub frames: Option<Frames>,
    /// How many instructions it has done.
    pub done: u64,
    /// How many mailboxes it has made.
    pub boxes: u32,
}

/// What a task comes to. It stands right before the action, which isn't done yet; what it puts or starts stays in the heap.
#[derive(Drop)]
pub enum Came {
    /// It goes on.
    On,
    /// It puts the object of that name, with its shape, into a mailbox. A full one ends it.
    Puts(BoxName, u32, Shape),
    /// It puts that one, and waits while the mailbox is full.
    PutsWaiting(BoxName, u32, Shape),
    /// It would put the object of that name so, but that is too large a tree: it ends.
    TooLarge(BoxName, u32),
    /// It bounds the mailbox.
    Bounds(BoxName, u32),
    Takes(BoxName),
    Probes(BoxName),
    /// It starts the task object of that name, with its shape.
    Starts(u32, Shape),
    Prints(Shape),
    Ends(EndCause),
}
