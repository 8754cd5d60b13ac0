//! The mailboxes of a board, and the fibers that wait at them or are ready.

mod mailboxes;
mod parked;
mod spots;

pub use mailboxes::Mailboxes;
pub use parked::{Parked, Waiter};
pub use spots::{line_up, note, wake};
