//! Whether two entries of journals are the same.
#![tactic(auto)]

mod same;

pub use same::{same_act, same_entry};
