//! A task, as it is handed from turn to turn.

use kilim_mail_notes::History;
use kilim_run_board::fibers::Answer;

/// A task: its fiber, its clock and its history. Where it asked for something and got it while it waited, the answer is with it.
#[derive(Drop)]
pub struct Body<F> {
    /// The fiber.
    pub fiber: F,
    /// The stamp of the task's last entry, or of its start.
    pub clock: u64,
    /// What the fiber is to be answered.
    pub pending: Option<Answer>,
    /// What the task began with and did.
    pub history: History,
}
