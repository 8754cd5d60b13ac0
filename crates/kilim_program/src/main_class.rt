//! The main class of a run, by its name.

mod classes;

pub use classes::{constructor_of, fit_main, is_fit_main};
