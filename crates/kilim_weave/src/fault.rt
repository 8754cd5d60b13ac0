//! Why a program isn't woven.

use kilim_program::MethodId;

/// Why a program isn't woven.
#[derive(Clone, Copy)]
pub enum WeaveFault {
    /// The method has pausable calls, and a weight above 32,767: this is its weight.
    TooLong(MethodId, u64),
    /// The pausable method has 255 argument slots, or a descriptor of more than 65,522 bytes of modified UTF-8: the fiber has no
    /// place behind its arguments (JVMS 4.3.3, 4.4.7).
    ArgumentsFull(MethodId),
    /// Want of memory.
    Memory,
}
