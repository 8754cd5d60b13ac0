//! Why bytes aren't text.

ghost use Rattle.std.specs.Prelude.{◌≡◌};

use std::alloc::{AllocError, AllocFailed};

/// Why bytes aren't modified UTF-8. Places are byte offsets from the first byte, and the fault is that of the
/// first unit that isn't spelled.
#[derive(Clone, Copy)]
pub enum TextFault {
    /// The byte at this place can't stand there: a first byte 0, 0x80 to 0xBF or 0xF0 to 0xFF, or a later byte
    /// of a unit that isn't 0x80 to 0xBF.
    BadByte(usize),
    /// Behind a first byte stand fewer bytes than it asks for, whatever they are.
    Cut,
    /// At this place begins a unit that is spelled in more bytes than it takes.
    SecondSpelling(usize),
    /// Want of memory.
    Memory,
}

impl From<AllocError> for TextFault {
    ghost use Rattle.kilim_class_mutf8.specs.declared.fault.TextFault.TheVariants as fault;

    ghost from_gives = { λ _ e. e ≡ fault.Memory };

    fn from(_: AllocError) -> TextFault {
        TextFault::Memory
    }
}

impl<T: Drop> From<AllocFailed<T>> for TextFault {
    ghost use Rattle.kilim_class_mutf8.specs.declared.fault.TextFault.TheVariants as fault;

    ghost from_gives = { λ _ e. e ≡ fault.Memory };

    fn from(_: AllocFailed<T>) -> TextFault {
        TextFault::Memory
    }
}
