//! Laws of code arrays.

ghost use Rattle.kilim_class_code.specs.Exact.{OneCode, OneFault, TargetsArePlaces};

use crate::opcodes::one_spelling;

/// A law, and no work: no two lists of instructions have one text. So what was written is read again.
pub fn one_code()
    ensures { OneCode }
{
    one_spelling();
}

/// A law, and no work: a code has one fault at most, and code with a fault is no text.
pub fn one_fault()
    ensures { OneFault }
{
    one_spelling();
}

/// A law, and no work: where no target fails, each target is the place of an instruction.
pub fn targets_are_places()
    ensures { TargetsArePlaces }
{}
