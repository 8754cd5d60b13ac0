//! While a pausable method of an accepted program runs, its receiver stays in the heap: a law, and no code that does work.

pub mod called;
pub mod states;

ghost use Rattle.kilim_fiber_laws.specs.receivers.Law.{ReceiversStay};

/// A law, and no work: the receiver of a pausable method stays in the heap while the method runs.
pub fn receivers_stay()
    ensures { ReceiversStay }
{}
