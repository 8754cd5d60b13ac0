//! From the beginning of a task on, a woven fiber does what the thread does: a law, and no code that does work.

ghost use Rattle.kilim_fiber_laws.specs.simulation.beginnings.Law.{BeginningsServe};

/// A law, and no work: where a task begins, the fiber does what the thread does.
pub fn beginnings_serve()
    ensures { BeginningsServe }
{}
