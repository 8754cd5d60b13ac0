//! Types and qualifiers by the texts of class files, where classes are looked up in a world.

mod marks;
mod methods;
mod types;

pub use methods::qualified;
pub use types::{class_named_by, type_in, type_named};
