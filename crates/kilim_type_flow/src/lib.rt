//! Which locals are live at each place of a method's code: those that some path reads before it writes them.
#![tactic(auto)]

mod before;
mod column;
mod list;
mod slots;
mod table;
mod targets;

pub use list::edges;
pub use table::{LiveTable, live};
pub use targets::{ends_path, jump_targets};
