//! The journal of a run can be read: a law about definitions, which no program calls to do work.

ghost use Rattle.kilim_isolation_laws.specs.at_rest.readable.Laws.{EntriesAreReadable, RunsAreReadable};

/// A law, and no work: in the journal of a run of moved messages each message and each started task is one object, and what
/// is printed is one value.
pub fn runs_are_readable()
    ensures { RunsAreReadable }
{}

/// A law, and no work: so it is in a journal that can be replayed, whether its run is over or not.
pub fn entries_are_readable()
    ensures { EntriesAreReadable }
{}
