//! Threads over one shared heap, and the same threads each on a heap of its own. Definitions in `specs/`, and laws about
//! them, which no program calls to do work.

ghost use Rattle.kilim_run_model.specs.one_heap.Laws.{MovedIsWhole, MovesAreBooked, MovesMatch, NextMovesAreKin, NoOwnEnds, NoneShares, OneHeapIsMany, PlaysReplay};

/// A law, and no work: a thread does next the same on a heap of its own as on a heap that it shares, but for the names
/// of objects.
pub fn next_moves_are_kin()
    ensures { NextMovesAreKin }
{}

/// A law, and no work: a move of a thread over the one heap is its move over its own heap, and leaves all threads and
/// mailboxes alike but for the names of objects.
pub fn moves_match()
    ensures { MovesMatch }
{}

/// A law, and no work: a thread's own end is never one that others decide: for want of tasks, or at a full mailbox.
pub fn no_own_ends()
    ensures { NoOwnEnds }
{}

/// A law, and no work: a move over many heaps keeps each thread that of its course, and the mailboxes those that the
/// journal gives.
pub fn moves_are_booked()
    ensures { MovesAreBooked }
{}

/// A law, and no work: in no interleaving of a program whose threads are kept is an object reached by two threads, by a
/// thread and a place in a queue, or by two places in queues.
pub fn none_shares()
    ensures { NoneShares }
{}

/// A law, and no work: a list of entries is replayed over one heap exactly where it is over many heaps, and the one
/// state is at rest exactly where the other is, with the same waits.
pub fn one_heap_is_many()
    ensures { OneHeapIsMany }
{}

/// A law, and no work: what is replayed over many heaps and at rest there is the journal of a whole run over one heap.
pub fn moved_is_whole()
    ensures { MovedIsWhole }
{}

/// A law, and no work: the journal of any play is replayed, to a state with that journal.
pub fn plays_replay()
    ensures { PlaysReplay }
{}
