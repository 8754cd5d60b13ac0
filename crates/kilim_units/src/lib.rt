//! Lists, texts as UTF-16 units, names as reports and journals show them, and want of memory.
#![tactic(auto)]

mod memory;
mod seq;
mod shown;
mod units;

pub use memory::{NoMemory, no_room, unmet};
pub use seq::Seq;
pub use shown::{name_text, push_escape, push_name};
pub use units::Units;
