//! A mailbox of a turn, with its clock.
#![tactic(auto)]

mod post;

pub use post::{Message, Post};
