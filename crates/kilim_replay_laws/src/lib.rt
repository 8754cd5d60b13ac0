//! What is to be said of a journal: definitions, and laws about them, which no program calls to do work.
#![tactic(auto)]

ghost use Rattle.kilim_replay_laws.specs.Leads.{ThreadsLead};
ghost use Rattle.kilim_replay_laws.specs.Samples.{Samples};
ghost use Rattle.kilim_replay_laws.specs.Verdicts.{OneVerdict};
ghost use Rattle.kilim_replay_laws.specs.Waiting.{WaitsAsk};

pub mod shared;
mod verdict;

pub use verdict::Verdict;

/// A law, and no work: of a journal there is one verdict.
pub fn one_verdict()
    ensures { OneVerdict }
{}

/// A law, and no work: the moves without an action of one thread over the one heap lead the state on.
pub fn threads_lead()
    ensures { ThreadsLead }
{}

/// A law, and no work: what is said of journals of the program that prints 7.
pub fn samples_hold()
    ensures { Samples }
{}

/// A law, and no work: a thread that may have to wait stands at the call of `get` or of a put that waits, whatever the heap holds.
pub fn waits_ask()
    ensures { WaitsAsk }
{}
