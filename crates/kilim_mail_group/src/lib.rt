//! The mailboxes of one turn, and the tasks that wait at them.
#![tactic(auto)]

mod acts;
mod boxes;
mod group;
mod steps;
mod waiting;

pub use boxes::{Ask, Boxes, Came, Sleeper};
pub use group::Group;
