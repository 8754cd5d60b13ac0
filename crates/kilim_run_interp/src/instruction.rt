//! One instruction of a frame. Calls and returns are told: the frames of the task are left to the caller.

mod calls;
mod making;
mod near;
mod operations;
mod reached;
mod table;

pub use making::new_object;
pub use near::act_near;
pub use reached::{ByClass, Reach, reach_table, told};
pub use table::act;
