//! Which types stand in the frames of well-typed code: laws, and no code that does work.

ghost use Rattle.kilim_weave_laws.specs.woven_programs.types.Law.{TypesAreThere};

/// A law, and no work: each class in the frames of well-typed code is there, and none of their types is an array of tasks.
pub fn types_are_there()
    ensures { TypesAreThere }
{}
