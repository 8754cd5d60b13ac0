//! Which built-in method each method of a woven program is, and which `execute` the objects of each class have: told by names once, and
//! then looked up by numbers.

mod executes;
mod natives;
mod tables;

pub use executes::execute_of;
pub use natives::{Member, Native, native_of};
pub use tables::{execute_at, execute_table, native_at, native_table};
