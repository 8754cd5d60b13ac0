//! What every thread of an accepted program keeps: whatever it reaches is in its own heap, and what it gives away next is a whole tree.
//! Laws, and no work.

ghost use Rattle.kilim_isolation_laws.specs.kept.Laws.{AcceptedIsKept};

/// A law, and no work: each thread that there can be of an accepted program keeps what it reaches in its own heap, and gives away whole
/// trees alone.
pub fn accepted_is_kept()
    ensures { AcceptedIsKept }
{}
