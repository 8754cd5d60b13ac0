//! The law.

ghost use Rattle.kilim_isolation_laws.specs.names.Laws.{GivenTreesLeave};

/// A law, and no work: a tree's names are those of the objects at and below its root, each once.
pub fn given_trees_leave()
    ensures { GivenTreesLeave }
{}
