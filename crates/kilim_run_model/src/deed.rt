//! What a task began with, and what it did.

use kilim_run_journal::Act;
use kilim_run_state::Shape;

/// An act of a task, with what others decided: the numbers stand in the act itself, and beside a take stands the shape of
/// the message that was taken. It is empty beside every other act.
#[derive(Drop)]
pub struct Deed {
    pub act: Act,
    pub taken: Shape,
}

/// What a task begins with.
#[derive(Drop)]
pub enum Beginning {
    /// The constructor of the main class, on a new object.
    Boot,
    /// `execute` of a task object of that shape.
    Begun(Shape),
}
