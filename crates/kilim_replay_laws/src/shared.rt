//! Threads of verified code over one heap: laws, which no program calls to do work.

ghost use Rattle.kilim_replay_laws.specs.shared.Runs.{TypedRunsGo};
ghost use Rattle.kilim_replay_laws.specs.shared.Shared.{HeapsStay, VerifiedIsShared};

/// A law, and no work: each object that is in the heap before a move of a task's frames is there behind it.
pub fn heaps_stay()
    ensures { HeapsStay }
{}

/// A law, and no work: over one heap threads of verified code go on fitting, and none is stuck at its next instruction.
pub fn verified_is_shared()
    ensures { VerifiedIsShared }
{}

/// A law, and no work: each thread of a well-typed program may go on by itself over the one heap, in every state of a run.
pub fn typed_runs_go()
    ensures { TypedRunsGo }
{}
