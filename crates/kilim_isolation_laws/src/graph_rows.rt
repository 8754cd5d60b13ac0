//! What each instruction leaves of a thread's frames, its shape graphs and its heap, where the type step and the isolation rules let it
//! pass. Laws, and no work.

ghost use Rattle.kilim_isolation_laws.specs.graph_rows.Facts.{GivesKeep, RowsHold, TakesKeep};

/// A law, and no work: an instruction that the type step and the rules let pass leaves slots, graph and heap that go together, for
/// all frames of the thread at once.
pub fn rows_hold()
    ensures { RowsHold }
{}

/// A law, and no work: so does a tree that is put or started, and leaves the heap.
pub fn given_trees_leave()
    ensures { GivesKeep }
{}

/// A law, and no work: so does a tree that is taken, and comes into the heap.
pub fn taken_trees_come()
    ensures { TakesKeep }
{}
