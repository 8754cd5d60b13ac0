//! The faults of linking that look at the world, and the first fault of all.
#![tactic(auto)]

mod class;
mod fields;
mod first;
mod members;
mod twice;

pub use class::{both_kinds, circular, class_missing, super_kind};
pub use fields::field_kinds;
pub use first::{first_fault, first_problem};
pub use members::member_missing;
pub use twice::declared_twice;
