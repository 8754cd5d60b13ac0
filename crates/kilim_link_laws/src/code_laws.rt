//! Facts of methods, code and frames of programs that are linked: laws about definitions of the crates below.

ghost use Rattle.kilim_link_laws.specs.code_laws.Facts.{CatchesAreThere, CodeIsWhole, ConstantsFit, FramesAreProper, FramesIncrease, IdsArePlaces, MethodsAreSound, NoFaultLinks, NoTaskArrays, NonePausesWithTable, ReceiversAreCuttable, TablesStand};

use kilim_class_code::opcodes::{lengths, one_spelling};
use kilim_class_code::targets_are_places;
use kilim_link_spec::{linked_in_parts, none_has_a_problem, none_of_each_kind};

/// A law, and no work: the places of a method's frames increase.
pub fn frames_increase()
    ensures { FramesIncrease }
{
    linked_in_parts();
}

/// A law, and no work: each object in a declared frame is a class or an array, and each long in its locals has its second half.
pub fn frames_are_proper()
    ensures { FramesAreProper }
{
    linked_in_parts();
}

/// A law, and no work: no method that pauses has an exception table.
pub fn none_pauses_with_table()
    ensures { NonePausesWithTable }
{
    linked_in_parts();
    none_has_a_problem();
    none_of_each_kind();
}

/// A law, and no work: each class that an exception table catches is one of the program.
pub fn catches_are_there()
    ensures { CatchesAreThere }
{
    linked_in_parts();
}

/// A law, and no work: each entry of an exception table is one of instructions of its method.
pub fn tables_stand()
    ensures { TablesStand }
{
    linked_in_parts();
    none_has_a_problem();
    none_of_each_kind();
}

/// A law, and no work: a method has a qualifier for each parameter and few argument slots, and no constructor pauses.
pub fn methods_are_sound()
    ensures { MethodsAreSound }
{
    linked_in_parts();
    none_has_a_problem();
    none_of_each_kind();
}

/// A law, and no work: the receiver of each constructor is cuttable.
pub fn receivers_are_cuttable()
    ensures { ReceiversAreCuttable }
{
    linked_in_parts();
}

/// A law, and no work: the code of each method is whole.
pub fn code_is_whole()
    ensures { CodeIsWhole }
{
    one_spelling();
    lengths();
    targets_are_places();
    linked_in_parts();
}

/// A law, and no work: a static field has a constant of its type.
pub fn constants_fit()
    ensures { ConstantsFit }
{
    linked_in_parts();
    none_has_a_problem();
    none_of_each_kind();
}

/// A law, and no work: class files without a fault link to a program.
pub fn no_fault_links()
    ensures { NoFaultLinks }
{
    targets_are_places();
    none_has_a_problem();
    none_of_each_kind();
}

/// A law, and no work: no type of a program is an array of tasks.
pub fn no_task_arrays()
    ensures { NoTaskArrays }
{
    linked_in_parts();
    none_has_a_problem();
    none_of_each_kind();
}

/// A law, and no work: each id in a program is a place in its list.
pub fn ids_are_places()
    ensures { IdsArePlaces }
{
    linked_in_parts();
}
