//! The debug tables of class files: source file, line numbers and local variables (JVMS 4.7.10, 4.7.12, 4.7.13).
#![tactic(auto)]

mod laws;
mod lookups;
mod reading;
mod tables;

pub use laws::tables_are_spelled;
pub use lookups::{line_at, variable_at};
pub use reading::{line_numbers, local_variables, source_file};
pub use tables::{LineNumber, LocalVariable, TableFault};
