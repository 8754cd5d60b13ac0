//! A woven fiber as it stands, what it does next, and that the names of its objects are no matter. Definitions in `specs/`, and laws
//! about them, which no program calls to do work.

pub mod history;

ghost use Rattle.kilim_fiber_laws.specs.woven_kin.Laws.{FineAlike, NextsAlike, TreesCome, TreesLeave};

/// A law, and no work: what a fiber does next is what the woven machine's does next.
pub fn nexts_alike()
    ensures { NextsAlike }
{}

/// A law, and no work: where the machine's next instruction is fine, so is the fiber's.
pub fn fine_alike()
    ensures { FineAlike }
{}

/// A law, and no work: a tree leaves both heaps, and what is left is alike.
pub fn trees_leave()
    ensures { TreesLeave }
{}

/// A law, and no work: a tree comes into both heaps, and they are alike with it.
pub fn trees_come()
    ensures { TreesCome }
{}
