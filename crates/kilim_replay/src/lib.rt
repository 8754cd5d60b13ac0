//! A checker of journals: a journal is replayed by the unwoven threads of a verified program over one heap.
#![tactic(auto)]

mod checker;
mod fold;
mod kept;
mod machine;
mod mailboxes;
mod rest;

pub use checker::check;
pub use kilim_replay_laws::Verdict;
