//! Why a class file isn't woven.

/// Why a class file isn't woven.
#[derive(Clone, Copy)]
pub enum ApplyFault {
    /// The pool of the woven file might have more than 65,535 indices: this is the count that it may reach.
    PoolFull(u64),
    /// The woven file might be longer than 16,777,216 bytes: this is the length that it may reach.
    FileTooLarge(u64),
    /// Want of memory.
    Memory,
}
