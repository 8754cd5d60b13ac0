//! Laws about the definitions. No program calls them to do work.

ghost use Rattle.kilim_isolation.specs.Examples.{ExamplesHold};
ghost use Rattle.kilim_isolation.specs.Laws.{AcceptedGoesOn};

/// A law, and no work: the examples of `specs/Examples.antt`.
pub fn examples_hold()
    ensures { ExamplesHold }
{}

/// A law, and no work: in an accepted program every method with code begins with a graph, each graph that a path reaches goes
/// on along each exit, and no place is crowded.
pub fn accepted_goes_on()
    ensures { AcceptedGoesOn }
{}
