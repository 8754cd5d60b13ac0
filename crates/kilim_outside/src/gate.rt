//! The gates that workers pass.

/// A worker passes the gate before it runs a task that it was lent. So a test can see, and hold, what
/// runs. The gate changes nothing of a run.
pub trait Gate: Sync {
    /// The task that is about to run, and its number of records: one for each frame that it saved when
    /// it paused, and one for the leaf, the call that paused.
    fn pass(&self, task: u32, records: usize);
}

/// The gate that does nothing.
#[derive(Clone, Copy)]
pub struct OpenGate;

impl OpenGate {
    /// The gate that does nothing.
    pub fn new() -> Self {
        OpenGate
    }
}

impl Gate for OpenGate {
    fn pass(&self, _task: u32, _records: usize) {}
}
