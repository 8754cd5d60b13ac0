//! What a woven fiber comes to, by its history: laws, and no code that does work.

ghost use Rattle.kilim_fiber_laws.specs.woven_kin.history.Laws.{HistoryGoesOn, MachineFollows};

/// A law, and no work: a step of the woven machine is what the fiber does next, from each list of deeds and pauses that are to come.
pub fn machine_follows()
    ensures { MachineFollows }
{}

/// A law, and no work: from where a fiber comes by its history it does what it does next.
pub fn history_goes_on()
    ensures { HistoryGoesOn }
{}
