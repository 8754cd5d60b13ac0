//! What is told while a mailbox turn is held.

/// Is told the number of the mailbox turn that its caller holds. It changes nothing of the run.
pub trait Inside: Sync {
    /// The caller holds that turn.
    fn at(&self, turn: usize);
}

/// Does nothing.
#[derive(Drop)]
pub struct OpenInside;

impl Inside for OpenInside {
    fn at(&self, turn: usize) {
        let _ = turn;
    }
}
