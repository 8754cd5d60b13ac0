//! Runs of a program to which class files link, and which verification and the isolation rules accept: laws, which no program
//! calls to do work.

pub mod begins;
pub mod isolated;
pub mod plain;

ghost use Rattle.kilim_isolation_laws.specs.accepted_runs.Laws.{AcceptedIsIsolated, AcceptedIsRun};

use crate::accepted_runs::begins::mains_begin;
use crate::accepted_runs::plain::linked_is_plain;
use crate::kept::accepted_is_kept;
use kilim_run_model::one_heap::none_shares;

/// A law, and no work: with a fit main class a linked, accepted program makes a run of an accepted program, whatever its limits are.
pub fn accepted_is_run()
    ensures { AcceptedIsRun }
{
    linked_is_plain();
    mains_begin();
}

/// A law, and no work: in no interleaving of a linked, accepted program is an object reached by two threads.
pub fn accepted_is_isolated()
    ensures { AcceptedIsIsolated }
{
    linked_is_plain();
    mains_begin();
    accepted_is_kept();
    none_shares();
}
