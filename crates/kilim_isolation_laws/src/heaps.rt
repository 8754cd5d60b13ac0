//! A tree that comes into a heap of trees: laws about definitions, which no program calls to do work.

ghost use Rattle.kilim_isolation_laws.specs.heaps.Laws.{TakenTreesCome};

/// A law, and no work: what is built of an allowed shape, under new names, is a tree beside those that are there.
pub fn taken_trees_come()
    ensures { TakenTreesCome }
{}
