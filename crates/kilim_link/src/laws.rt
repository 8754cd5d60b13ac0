//! Laws about linked programs. No program calls them to do work.

ghost use Rattle.kilim_link.specs.Keeping.{LinksKeep, NoFaultIsAProgram};

use kilim_link_laws::code_laws::{
    catches_are_there, code_is_whole, constants_fit, frames_are_proper, frames_increase,
    ids_are_places, methods_are_sound, no_fault_links, no_task_arrays, none_pauses_with_table,
    tables_stand,
};
use kilim_link_laws::{
    built_in_is_last, fields_fit, members_are_owned, names_differ, none_is_both,
    none_is_its_ancestor, none_is_left_abstract, none_is_named_as_array, outline_agrees,
    overriding_agrees, own_classes_fit, superclasses_fit,
};

/// A law, and no work: a program to which class files link, of which none has a fault, keeps the facts of programs.
pub fn links_keep()
    ensures { LinksKeep }
{
    ids_are_places();
    none_is_its_ancestor();
    code_is_whole();
    frames_increase();
    frames_are_proper();
    tables_stand();
    catches_are_there();
    none_pauses_with_table();
    built_in_is_last();
    members_are_owned();
    names_differ();
    none_is_named_as_array();
    methods_are_sound();
    none_is_both();
    no_task_arrays();
    outline_agrees();
    superclasses_fit();
    own_classes_fit();
    fields_fit();
    overriding_agrees();
    none_is_left_abstract();
    constants_fit();
}

/// A law, and no work: class files without a fault link to a program, and it keeps the facts of programs.
pub fn no_fault_is_a_program()
    ensures { NoFaultIsAProgram }
{
    no_fault_links();
    links_keep();
}
