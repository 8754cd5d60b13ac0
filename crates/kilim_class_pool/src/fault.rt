//! Why bytes aren't a constant pool, and why one has no room.

ghost use Rattle.std.specs.Prelude.{◌≡◌};

use std::alloc::{AllocError, AllocFailed};

/// Why bytes don't begin with a constant pool (JVMS 4.4): the first part in file order that isn't spelled. The count and
/// the entries come first, in order; then, once all entries are there, the indices in them, in order.
#[derive(Clone, Copy)]
pub enum PoolFault {
    /// The bytes end inside the pool.
    Cut,
    /// The entry of this index has a tag that isn't one of the fourteen: the index, and the tag.
    Tag(u16, u8),
    /// The entry of this index names no entry of a kind that it has to, or is a method handle of no kind; or it is a
    /// Long or a Double whose second index isn't below the count. It is 0 where the count is 0.
    BadIndex(u16),
    /// The entry of this index is a text that isn't modified UTF-8.
    Text(u16),
    /// Want of memory.
    Memory,
}

impl From<AllocError> for PoolFault {
    ghost use Rattle.kilim_class_pool.specs.declared.fault.PoolFault.TheVariants as fault;

    ghost from_gives = { λ _ e. e ≡ fault.Memory };

    fn from(_: AllocError) -> PoolFault {
        PoolFault::Memory
    }
}

impl<T: Drop> From<AllocFailed<T>> for PoolFault {
    ghost use Rattle.kilim_class_pool.specs.declared.fault.PoolFault.TheVariants as fault;

    ghost from_gives = { λ _ e. e ≡ fault.Memory };

    fn from(_: AllocFailed<T>) -> PoolFault {
        PoolFault::Memory
    }
}

/// Why an entry wasn't added.
#[derive(Clone, Copy)]
pub enum AddFault {
    /// The entry isn't there, and with it the count of indices would pass 65,535.
    Full,
    /// Want of memory.
    Memory,
}

impl From<AllocError> for AddFault {
    ghost use Rattle.kilim_class_pool.specs.declared.fault.AddFault.TheVariants as fault;

    ghost from_gives = { λ _ e. e ≡ fault.Memory };

    fn from(_: AllocError) -> AddFault {
        AddFault::Memory
    }
}

impl<T: Drop> From<AllocFailed<T>> for AddFault {
    ghost use Rattle.kilim_class_pool.specs.declared.fault.AddFault.TheVariants as fault;

    ghost from_gives = { λ _ e. e ≡ fault.Memory };

    fn from(_: AllocFailed<T>) -> AddFault {
        AddFault::Memory
    }
}
