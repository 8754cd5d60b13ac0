//! What a woven fiber of an accepted program hands out next is a whole tree: a law, and no code that does work.

ghost use Rattle.kilim_fiber_laws.specs.woven_served.gives.Law.{WovenGives};

/// A law, and no work: a woven fiber does what the task does, and puts and starts whole trees.
pub fn woven_gives()
    ensures { WovenGives }
{}
