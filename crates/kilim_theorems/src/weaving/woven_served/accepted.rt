//! The woven form of an accepted program does what the program does: a law, and no code that does work.

ghost use Rattle.kilim_fiber_laws.specs.woven_served.accepted.Law.{AcceptedWeaves};

/// A law, and no work: a woven fiber of an accepted program's woven form does what the thread does.
pub fn accepted_weaves()
    ensures { AcceptedWeaves }
{}
