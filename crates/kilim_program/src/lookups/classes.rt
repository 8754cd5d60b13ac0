//! Classes by their ids and by their names.

ghost use Rattle.std.specs.Prelude.{◌≡◌, ◌∷◌, [], ◌++◌, option_copied, IfOk, OnOk};
ghost use Rattle.kilim_program.specs.Names.{class_at, class_named, line_of};
ghost use Rattle.kilim_program.specs.Same.{same_base};

use crate::{Base, Class, ClassId, Program};
use kilim_units::{NoMemory, no_room};
use std::alloc::Global;

/// The class of an id, none past the end.
pub fn class_at(program: &Program, class: ClassId) -> Option<&Class>
    ensures { option_copied result ≡ class_at program.now class }
{
    program.classes.as_slice().get(class.0 as usize)
}

/// The class of that name, the first one where there were several; the name is in ASCII. Want of memory comes only
/// where the class has no id, since there are too many.
pub fn class_named(program: &Program, name: &[u8]) -> Result<Option<ClassId>, NoMemory>
    ensures { IfOk result (λ found. found ≡ class_named program.now name.now) }
{
    for (at, class) in program.classes.as_slice().iter().enumerate() {
        if class.name.is_text(name) {
            let Ok(number) = u32::try_from(at) else {
                // room: 2^32 classes
                return Err(no_room());
            };
            return Ok(Some(ClassId(number)));
        }
    }
    Ok(None)
}

/// Whether two bases are one.
pub fn same_base(a: Base, b: Base) -> bool
    ensures { result ≡ same_base a b }
{
    match (a, b) {
        (Base::Bool, Base::Bool) => true,
        (Base::Byte, Base::Byte) => true,
        (Base::Char, Base::Char) => true,
        (Base::Short, Base::Short) => true,
        (Base::Int, Base::Int) => true,
        (Base::Long, Base::Long) => true,
        (Base::Class(c), Base::Class(d)) => c.0 == d.0,
        _ => false,
    }
}

/// The class, its superclass, and so on up.
pub fn line_of(alloc: Global, program: &Program, class: ClassId) -> Result<Vec<ClassId>, NoMemory>
    ensures { IfOk result (λ line. line.items ≡ line_of program.now class) }
{
    let mut line = Vec::new(alloc);
    let mut at = class;
    let mut left = program.classes.len();
    while left > 0 {
        push_class(&mut line, at)?;
        let Some(found) = class_at(program, at) else {
            return Ok(line);
        };
        let Some(up) = found.superclass else {
            return Ok(line);
        };
        at = up;
        left -= 1;
    }
    Ok(line)
}

fn push_class(line: &mut Vec<ClassId>, class: ClassId) -> Result<(), NoMemory>
    ensures { OnOk result (line.new.items ≡ line.old.items ++ class ∷ []) }
{
    line.push(class)?;
    Ok(())
}
