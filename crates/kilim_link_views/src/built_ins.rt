//! The built-in classes and their methods, as values of a program.
//!
//! What they are is defined in `kilim_run_machine` (`specs/BuiltIn.antt`). They stand behind the classes of the files: so
//! the first of them, and the first of their methods, have any numbers.

mod classes;
mod methods;
mod parts;
mod rows;

pub use classes::{built_in_classes, built_in_fields};
pub use methods::built_in_methods;
