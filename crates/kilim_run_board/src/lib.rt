//! The board of tasks: which fibers are ready, lent or parked, what waits in the mailboxes, and the journal.
#![tactic(auto)]

mod board;
pub mod boxed;
pub mod fibers;
mod laws;
pub mod mailbox;
pub mod waiting;

pub use crate::waiting::{Mailboxes, Parked, Waiter};
pub use board::{Acted, Board, Lent};
pub use laws::mailboxes_are_threads;
