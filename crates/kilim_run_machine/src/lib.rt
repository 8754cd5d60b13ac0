//! What a program does: the meaning of instructions. It stands in `specs/`, as a function over lists and a finite map.
#![tactic(auto)]

mod laws;
mod woven;

pub use laws::is_found;
pub use woven::Woven;
