//! Why there is nothing to go on with.

/// Why a stage has nothing for the next one.
#[derive(Drop)]
pub enum Refusal {
    /// It has a fault: its report.
    Report(Vec<u8>),
    NoMemory,
}
