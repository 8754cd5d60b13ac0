//! What a run looks up in a program: classes by name, the method that a call selects, the instruction at a place.

mod classes;
mod code;
mod methods;

pub(crate) use classes::same_base;
pub use classes::{class_at, class_named, line_of};
pub use code::{code_rises, fetch, instr_at, number_after, number_at};
pub use methods::{method_at, selected};
