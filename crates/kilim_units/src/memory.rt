//! Want of memory.

use std::alloc::{AllocError, AllocFailed};

/// Want of memory: the one answer that may come from any call that takes memory, at any time.
#[derive(Clone, Copy)]
pub struct NoMemory;

impl From<AllocError> for NoMemory {
    fn from(_: AllocError) -> NoMemory {
        NoMemory
    }
}

impl<T: Drop> From<AllocFailed<T>> for NoMemory {
    fn from(_: AllocFailed<T>) -> NoMemory {
        NoMemory
    }
}

/// Want of memory in place of a proof: the answer of a branch that no run is known to come to. A comment beside each call tells the fact that rules the branch out.
pub fn unmet() -> NoMemory {
    NoMemory
}

/// Want of memory where a number has no room in its type. A comment beside each call tells what would have to be how large.
pub fn no_room() -> NoMemory {
    NoMemory
}
