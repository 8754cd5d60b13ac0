//! A fiber of a woven program does what the task of each course does: a law, and no code that does work.

ghost use Rattle.kilim_fiber_laws.specs.woven_served.Served.{RunsServe};

/// A law, and no work: in each run of an accepted program a fiber of each woven form of it does what the task does, along each course.
pub fn runs_serve()
    ensures { RunsServe }
{}
