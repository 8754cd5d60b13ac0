//! The tasks that are ready, under a turn of their own.
#![tactic(auto)]

mod body;
mod ready;

pub use body::Body;
pub use ready::{Lent, Queue, Ready};
