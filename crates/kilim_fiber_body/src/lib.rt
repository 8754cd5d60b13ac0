//! Fibers that run woven code: a task on a heap of its own, which keeps records and no frames while it rests.
#![tactic(auto)]

mod answers;
mod asks;
mod begin;
mod births;
mod body;
mod code;
mod copies;
mod gifts;
mod legs;
mod members;
mod operands;
mod pass;

pub use answers::{done, found, found_none, pause, put_done, take, wait};
pub use births::{begun_body, first_body};
pub use body::{Apart, Body, Came};
pub use code::Code;
pub use copies::copy;
pub use legs::reach;
