//! Where no rule of pausing is broken, a program can be woven: laws, and no code that does work.
#![tactic(auto)]

ghost use Rattle.kilim_weave_pauses.specs.Law.{AcceptedKeepsPauses, PausesAreKept, ReceiversAreHeld};

/// A law, and no work: a typed program without a report of the rules of pausing keeps what its woven form's types rest on.
pub fn pauses_are_kept()
    ensures { PausesAreKept }
{}

/// A law, and no work: so does a typed program of which no rule at all is reported.
pub fn accepted_keeps_pauses()
    ensures { AcceptedKeepsPauses }
{}

/// A law, and no work: no pausable method of an accepted program may give its receiver away.
pub fn receivers_are_held()
    ensures { ReceiversAreHeld }
{}
