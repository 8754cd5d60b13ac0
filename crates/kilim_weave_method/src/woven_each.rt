//! The woven form of each method of a typed program, of all of them, and of the classes.

mod built_in;
mod copy;
mod each;
mod extended;
mod kept;
mod methods;

pub use built_in::{typed_classes, typed_fields};
pub use each::woven_each;
pub use kept::{keeps, keeps_program, keeps_typed};
pub use methods::{Methods, woven_methods};
