//! Names in a program.

use kilim_program::{ClassId, Method, Program};

/// The first method of that name, with its number.
pub fn method_named<'a>(program: &'a Program, name: &str) -> Option<(usize, &'a Method)> {
    for (number, method) in program.methods.as_slice().iter().enumerate() {
        if method.name.is_text(name.as_bytes()) {
            return Some((number, method));
        }
    }
    None
}

/// The class of that name.
pub fn class_named(program: &Program, name: &str) -> Option<ClassId> {
    for (number, class) in program.classes.as_slice().iter().enumerate() {
        if class.name.is_text(name.as_bytes()) {
            return match u32::try_from(number) {
                Ok(number) => Some(ClassId(number)),
                Err(_) => None,
            };
        }
    }
    None
}
