//! Why bytes aren't attributes.

ghost use Rattle.std.specs.Prelude.{◌≡◌};

use crate::parts::name::AttributeName;
use std::alloc::{AllocError, AllocFailed};

/// Why bytes aren't attributes. The fault is that of the first part that can't be read.
#[derive(Clone, Copy)]
pub enum AttributeFault {
    /// The bytes end inside an attribute or before it, by its stated length.
    Cut,
    /// The content of an attribute of this name doesn't fill its stated length, the innermost one's where it is
    /// in another; or its code has no byte or more than 65,535 (JVMS 4.7.3); or an element value of its
    /// annotations has an unknown tag (JVMS 4.7.16.1).
    Length(AttributeName),
    /// No frame and no verification type has this tag (JVMS 4.7.4).
    FrameTag(u8),
    /// This index, 0 among them, names no entry of the kind that has to stand there.
    BadIndex(u16),
    /// An attribute that may stand once stands a second time.
    Twice(AttributeName),
    /// Want of memory.
    Memory,
}

impl From<AllocError> for AttributeFault {
    ghost use Rattle.kilim_class_attributes.specs.declared.parts.fault.AttributeFault.TheVariants as fault;

    ghost from_gives = { λ _ e. e ≡ fault.Memory };

    fn from(_: AllocError) -> AttributeFault {
        AttributeFault::Memory
    }
}

impl<T: Drop> From<AllocFailed<T>> for AttributeFault {
    ghost use Rattle.kilim_class_attributes.specs.declared.parts.fault.AttributeFault.TheVariants as fault;

    ghost from_gives = { λ _ e. e ≡ fault.Memory };

    fn from(_: AllocFailed<T>) -> AttributeFault {
        AttributeFault::Memory
    }
}
