//! Why a tree isn't moved.

/// Why a tree isn't moved.
#[derive(Clone, Copy)]
pub enum MoveFault {
    /// It has more than 65,536 objects.
    TooLarge,
    /// Want of memory.
    Memory,
}
