//! Whether two programs are equal.

ghost use Rattle.std.specs.Prelude.{◌≡◌, true};

use crate::same_programs::members::{same_classes, same_fields, same_methods};
use kilim_program::Program;

/// Whether two programs are equal, part by part: their classes, methods and fields, with the code, in their order, and the form.
/// It takes no memory, and time linear in what a program holds.
///
/// Programs that are said to be equal are equal. That no equal ones are overlooked isn't promised.
pub fn same_programs(one: &Program, other: &Program) -> bool
    ensures { result ≡ true → one.now ≡ other.now }
{
    one.form == other.form
        && same_classes(one.classes.as_slice(), other.classes.as_slice())
        && same_methods(one.methods.as_slice(), other.methods.as_slice())
        && same_fields(one.fields.as_slice(), other.fields.as_slice())
}
