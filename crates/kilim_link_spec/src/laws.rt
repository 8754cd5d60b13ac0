//! Laws about the definitions. No program calls them to do work.

ghost use Rattle.kilim_link_spec.specs.Laws.{DecodedIsDecode, LinkedInParts, NoneHasAProblem, NoneIsNamed, NoneOfEachKind};
ghost use Rattle.kilim_link_spec.specs.Linked.{OneProgram};

use kilim_class_code::opcodes::{lengths, one_spelling};

/// A law, and no work: no class files link to two programs.
pub fn one_program()
    ensures { OneProgram }
{}

/// A law, and no work: the definition of decoded code is met by what `kilim_class_code::decode` answers.
pub fn decoded_is_decode()
    ensures { DecodedIsDecode }
{
    one_spelling();
    lengths();
}

/// A law, and no work: where no fault is named there is none.
pub fn none_is_named()
    ensures { NoneIsNamed }
{}

/// A law, and no work: the classes, fields and methods of a program to which files link.
pub fn linked_in_parts()
    ensures { LinkedInParts }
{}

/// A law, and no work: a class without a problem has none of each kind.
pub fn none_of_each_kind()
    ensures { NoneOfEachKind }
{}

/// A law, and no work: where files have no fault of linking, no class has a problem.
pub fn none_has_a_problem()
    ensures { NoneHasAProblem }
{}
