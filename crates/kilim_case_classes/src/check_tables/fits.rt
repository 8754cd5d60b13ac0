//! Which verification types flow where.

use crate::check_tables::names::class_named;
use kilim_case_text::Text;
use kilim_program::{Base, Program, Ty};
use kilim_type_spec::{VType, assignable};

// The type of a descriptor's letter, or of a class's name.
fn base(program: &Program, word: &str) -> Option<Base> {
    match word {
        "Z" => Some(Base::Bool),
        "B" => Some(Base::Byte),
        "C" => Some(Base::Char),
        "S" => Some(Base::Short),
        "I" => Some(Base::Int),
        "J" => Some(Base::Long),
        _ => match class_named(program, word) {
            Some(class) => Some(Base::Class(class)),
            None => None,
        },
    }
}

// A class's name, or a type with a `[` in front for each dimension.
fn object(program: &Program, word: &str) -> Option<VType> {
    let name = word.trim_start_matches('[');
    let base = base(program, name)?;
    match u8::try_from(word.len().saturating_sub(name.len())) {
        Ok(dims) => Some(VType::Object(Ty { dims, base })),
        Err(_) => None,
    }
}

// A verification type by its word: `top`, `int`, `long`, `null`, `this` and `new` for objects that aren't initialized, a class's
// name, or an array.
fn vtype(program: &Program, word: &str) -> Option<VType> {
    match word {
        "top" => Some(VType::Top),
        "int" => Some(VType::Int),
        "long" => Some(VType::Long),
        "null" => Some(VType::Null),
        "this" => Some(VType::UninitThis),
        "new" => Some(VType::Uninit(0)),
        _ => object(program, word),
    }
}

/// Whether the first type may flow where the second is declared.
pub fn fits_line(text: &mut Text, program: &Program, from: &str, to: &str) {
    match (vtype(program, from), vtype(program, to)) {
        (Some(from), Some(to)) => text.word(if assignable(program, &from, &to) {
            "yes\n"
        } else {
            "no\n"
        }),
        _ => text.lacks(),
    }
}
