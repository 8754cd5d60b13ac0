//! What a woven fiber keeps of its frames: a record for each level, and whether it rewinds or pauses.
//!
//! The calls are the members of `kilim/Fiber` that woven code calls, and what a leaf does: a method that can pause by itself.

pub mod natives;
mod pile;
mod record;
mod records;

pub use record::Record;
pub use records::Records;
