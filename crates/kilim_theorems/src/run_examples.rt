//! Examples that pin what a run is. No program calls these laws to do work.

ghost use Rattle.kilim_theorems.specs.run_examples.Bounds.{BoundsAtEdges};
ghost use Rattle.kilim_theorems.specs.run_examples.Caught.{CaughtCountsOnce};
ghost use Rattle.kilim_theorems.specs.run_examples.Exceptions.{ExceptionsLand};
ghost use Rattle.kilim_theorems.specs.run_examples.FibersCatch.{FibersCatch};
ghost use Rattle.kilim_theorems.specs.run_examples.States.{StatesAreJudged};

/// A law, and no work: states in which an object is shared aren't isolated, each for one way of sharing, and one in which none is, is.
pub fn states_are_judged()
    ensures { StatesAreJudged }
{}

/// A law, and no work: an exception that is caught counts as one instruction, whether an instruction raises it, `athrow` throws it, or a
/// built-in method raises it.
pub fn caught_counts_once()
    ensures { CaughtCountsOnce }
{}

/// A law, and no work: a division by zero, computed, of a thread and of a fiber: caught by the first entry that has the place and catches the
/// class, caught below a frame without a table, and caught by none, which ends the task.
pub fn exceptions_land()
    ensures { ExceptionsLand }
{}

/// A law, and no work: a woven fiber catches as the thread beside it does. Both go on at the frames that are left, with one instruction
/// more; an exception that nothing catches is counted too, and then ends the task.
pub fn fibers_catch()
    ensures { FibersCatch }
{}

/// A law, and no work: what happens at a mailbox that has a bound: when it is full, which bounds there are, what the two puts do there, and
/// who waits.
pub fn bounds_at_edges()
    ensures { BoundsAtEdges }
{}
