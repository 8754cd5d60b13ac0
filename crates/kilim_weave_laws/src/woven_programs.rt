//! The woven form of a well-typed program is well typed: a law, and no code that does work.

pub mod classes;
pub mod keeps;
pub mod kept;
pub mod kinds;
pub mod places;
pub mod selects;
pub mod types;

ghost use Rattle.kilim_weave_laws.specs.woven_programs.Law.{NonePausesWithTable, WovenProgramsAreTyped, WovenTablesKeep};

/// A law, and no work: no method that can pause has an exception table.
pub fn none_pauses_with_table()
    ensures { NonePausesWithTable }
{}

/// A law, and no work: in a woven program the methods that can't pause are as they were, with their exception tables; no other has one; and
/// classes have the superclasses that they had, so that a class is caught by what caught it.
pub fn woven_tables_keep()
    ensures { WovenTablesKeep }
{}

/// A law, and no work: where a program is well typed and its pauses keep their rules, its woven form is well typed, and no
/// code in it is longer than its weight.
pub fn woven_programs_are_typed()
    ensures { WovenProgramsAreTyped }
{}
