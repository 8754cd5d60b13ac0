//! Threads of verified code go on fitting: laws about definitions of typing and of the machine. No program calls them to do work.

pub mod fine;

ghost use Rattle.kilim_isolation_laws.specs.typed_threads.Law.{BeginningsAreTyped, DeedsStayTyped, MovesStayTyped, ThreadsAreTyped};

/// A law, and no work: where a thread of verified code fits, and what its top stack names is there, it fits behind a move without an action.
pub fn moves_stay_typed()
    ensures { MovesStayTyped }
{}

/// A law, and no work: so it does behind an action, whatever others decide.
pub fn deeds_stay_typed()
    ensures { DeedsStayTyped }
{}

/// A law, and no work: each thread fits at its beginning.
pub fn beginnings_are_typed()
    ensures { BeginningsAreTyped }
{}

/// A law, and no work: each thread that there can be fits, where what the top stacks name is there.
pub fn threads_are_typed()
    ensures { ThreadsAreTyped }
{}
