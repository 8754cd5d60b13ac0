//! The law.

ghost use Rattle.kilim_isolation_laws.specs.states.Laws.{StatesGive};

/// A law, and no work: what a thread of accepted code puts or starts is a tree, and its objects are as their classes declare.
pub fn states_give()
    ensures { StatesGive }
{}
