//! From the bytes of class files to an accepted program and its woven form, or to the report of the first stage that has a fault.

mod laws;
mod main_class;
mod refusals;
mod stage;

pub use crate::Refusal;
pub use laws::woven_is_not_reported;
pub use main_class::with_main;
pub use stage::{WovenProgram, woven_program};
