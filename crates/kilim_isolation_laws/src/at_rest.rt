//! What it means that a run is at rest is one thing, however many moves are granted. Definitions in `specs/`, and laws
//! about them, which no program calls to do work.

pub mod readable;

ghost use Rattle.kilim_isolation_laws.specs.at_rest.Laws.{GetStays, OneRest};

/// A law, and no work: whether a thread stands at the `get` of a mailbox doesn't depend on the heap.
pub fn get_stays()
    ensures { GetStays }
{}

/// A law, and no work: from one state, threads come to rest in one way, with the same entries for those that wait.
pub fn one_rest()
    ensures { OneRest }
{}
