//! A woven fiber does what the unwoven thread does: a law, and no code that does work.

pub mod beginnings;

ghost use Rattle.kilim_fiber_laws.specs.simulation.Law.{WovenSimulates};
ghost use Rattle.kilim_fiber_laws.specs.simulation.Throwing.{ExceptionsMeetNone};

/// A law, and no work: a woven fiber does what the unwoven thread does.
pub fn woven_simulates()
    ensures { WovenSimulates }
{}

/// A law, and no work: an exception never meets a fiber that pauses or rewinds.
pub fn exceptions_meet_none()
    ensures { ExceptionsMeetNone }
{}
