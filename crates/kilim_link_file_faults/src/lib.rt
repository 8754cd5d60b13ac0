//! The faults of linking that a class file has by itself: its code, its descriptors, its name, and the parts that are
//! left out.
#![tactic(auto)]

mod code;
mod descriptors;
mod fields;
mod methods;
mod name;
mod parameters;
mod parts;
mod tables;
mod types;

pub use code::code_broken;
pub use descriptors::descriptor_broken;
pub use name::name_broken;
pub use parts::{left_out, left_out_problem};
pub use tables::handler_broken;
