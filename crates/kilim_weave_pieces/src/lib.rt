//! The pieces that woven code is put from: items, what they are made from, saves and restores, and the way back to a call.
#![tactic(auto)]

mod back;
mod item;
mod parts;
mod places;
mod plan;
mod saves;

pub use back::go_back;
pub use item::{Item, Items, Label, Size};
pub use parts::{
    add, call_fiber, class_vtype, dummy_of, load_of, local_size, pausable_callee, pop_of,
    return_of, save_fiber, store_of, taken, vtype,
};
pub use places::Places;
pub use plan::Plan;
pub use saves::{restore, restore_locals, restore_stack, save, save_locals, save_stack, type_at};
