//! Of which sort the slots, the fields and the objects of a program are. A law, and no work.

ghost use Rattle.kilim_isolation_laws.specs.sorts.Sorts.{ProgramsKeep};

/// A law, and no work: what the rows of the shape graphs rest on of a program, from what every program keeps.
pub fn programs_keep()
    ensures { ProgramsKeep }
{}
