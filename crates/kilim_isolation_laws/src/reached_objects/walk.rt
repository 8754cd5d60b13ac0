//! The isolation rules walk over listed frames; what they let pass passes under the types at the places, too: laws about
//! definitions, which no program calls to do work.

ghost use Rattle.kilim_isolation_laws.specs.reached_objects.walk.Laws.{EveryMethodGoes, FramesAreListed, WalksByTypes};

/// A law, and no work: in a typed program the frame that is listed for a place shows the types there.
pub fn frames_are_listed()
    ensures { FramesAreListed }
{}

/// A law, and no work: an instruction at a graph that a path leads to its place breaks no rule under the types there.
pub fn walks_by_types()
    ensures { WalksByTypes }
{}

/// A law, and no work: in an accepted program the graphs of every method with code go on along every path.
pub fn every_method_goes()
    ensures { EveryMethodGoes }
{}
