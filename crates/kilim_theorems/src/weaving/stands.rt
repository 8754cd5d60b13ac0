//! The woven form of a program by old place: a law, and no code that does work.

pub mod example;
pub mod serves;
pub mod shares;

ghost use Rattle.kilim_fiber_laws.specs.stands.Law.{WovenStands};

/// A law, and no work: each method of a woven program has its form by old place.
pub fn woven_stands()
    ensures { WovenStands }
{}
