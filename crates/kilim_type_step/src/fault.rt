//! What an instruction breaks.

/// Why there are no types behind an instruction.
#[derive(Drop)]
pub enum StepFault {
    /// The least rule that fails.
    Rule(u8),
    /// There was no memory.
    Memory,
}
