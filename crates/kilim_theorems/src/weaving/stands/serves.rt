//! The woven form of a program does what the program does: a law, and no code that does work.

ghost use Rattle.kilim_fiber_laws.specs.stands.serves.Law.{WovenServes};

/// A law, and no work: a woven fiber of a program's woven form does what the thread does.
pub fn woven_serves()
    ensures { WovenServes }
{}
