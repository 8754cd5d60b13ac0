//! The code of a woven method, instruction by instruction, with its labels and declared frames.
#![tactic(auto)]

mod copies;
mod count;
mod frames;
mod group;
mod moved;
mod old;
mod resume;
mod whole;

pub use copies::copied;
pub use count::calls_in;
pub use kilim_weave_pieces::{Item, Items, Label, Places, Plan, Size};
pub use whole::woven_items;
