//! In no interleaving of an accepted program is a message object reachable by two threads: a law about definitions, which no program
//! calls to do work.

ghost use Rattle.kilim_isolation_laws.specs.accepted_runs.isolated.Laws.{AcceptedIsIsolated};

/// A law, and no work: in no interleaving of an accepted program is an object reached by two threads, by a thread and a place in a
/// queue, or by two places in queues.
pub fn accepted_is_isolated()
    ensures { AcceptedIsIsolated }
{}
