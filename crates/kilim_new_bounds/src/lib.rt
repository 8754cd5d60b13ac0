//! A mailbox that gets a bound is new. A law, and no work.
#![tactic(auto)]

ghost use Rattle.kilim_new_bounds.specs.Laws.{AcceptedBoundsAreNew};

/// A law, and no work: a mailbox that a thread of an accepted program bounds is new.
pub fn bounds_are_new()
    ensures { AcceptedBoundsAreNew }
{}
