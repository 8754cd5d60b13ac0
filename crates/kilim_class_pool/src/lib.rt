//! The constant pool of a class file (JVMS 4.4), read and written exactly.
//!
//! A pool is seen as the list of its entries, in their order. An entry has an index, from 1 on; a Long or a Double
//! takes two, of which the second names nothing.
#![tactic(auto)]

mod adding;
mod entry;
mod fault;
mod pool;
mod reading;
mod refers;
mod writing;

pub use entry::Entry;
pub use fault::{AddFault, PoolFault};
pub use pool::Pool;
pub use reading::{pool_is_cut_or_broken, pool_is_spelled};
