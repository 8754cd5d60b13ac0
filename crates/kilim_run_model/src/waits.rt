//! What a task may have to wait for.

use kilim_program::BoxName;

/// What a task may have to wait for at a mailbox.
#[derive(Clone, Copy)]
pub enum Waits {
    /// A message.
    Take(BoxName),
    /// Room for one more.
    Put(BoxName),
}
