//! The mailboxes of a turn, by their names.
#![tactic(auto)]

mod posts;

pub use posts::Posts;
