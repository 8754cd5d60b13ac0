//! Why bytes aren't a class file.

ghost use Rattle.std.specs.Prelude.{◌≡◌};

use kilim_class_attributes::AttributeFault;
use kilim_class_pool::PoolFault;
use kilim_units::Units;
use std::alloc::{AllocError, AllocFailed};

/// A field or a method, by its name and its descriptor.
#[derive(Drop)]
pub struct MemberName {
    pub name: Units,
    pub descriptor: Units,
}

/// Why bytes aren't a class file: that there are too many, and else the first part in file order that isn't spelled
/// (JVMS 4.1).
#[derive(Drop)]
pub enum ClassFault {
    /// The first four bytes aren't 0xCAFEBABE.
    Magic,
    /// The version isn't 52.0: its major and its minor number.
    Version(u16, u16),
    /// The constant pool, or an index of the file's own parts that names no entry of the kind that it has to; 0 is such
    /// an index. It is never `Cut` and never `Memory`.
    Pool(PoolFault),
    /// An attribute. It is never `Cut` and never `Memory`.
    Attribute(AttributeFault),
    /// Bytes follow the last attribute, from this place on.
    Extra(usize),
    /// The bytes end inside a part: their number.
    Cut(usize),
    /// There are more than 16,777,216 bytes.
    TooLarge,
    /// A method is abstract or native and has Code, or is neither and has none (JVMS 4.7.3).
    CodePresence(MemberName),
    /// Want of memory.
    Memory,
}

impl From<AllocError> for ClassFault {
    ghost use Rattle.kilim_class_file.specs.declared.fault.ClassFault.TheVariants as fault;

    ghost from_gives = { λ _ e. e ≡ fault.Memory };

    fn from(_: AllocError) -> ClassFault {
        ClassFault::Memory
    }
}

impl<T: Drop> From<AllocFailed<T>> for ClassFault {
    ghost use Rattle.kilim_class_file.specs.declared.fault.ClassFault.TheVariants as fault;

    ghost from_gives = { λ _ e. e ≡ fault.Memory };

    fn from(_: AllocFailed<T>) -> ClassFault {
        ClassFault::Memory
    }
}
