//! In the journal of a whole run of an accepted program each mailbox has one history. No program calls these laws to do work.

ghost use Rattle.kilim_theorems.specs.mailbox_histories.Histories.{OneHistory};

use kilim_isolation_laws::kept::accepted_is_kept;
use kilim_new_bounds::bounds_are_new;
use kilim_run_board::mailboxes_are_threads;
use kilim_run_model::one_heap::one_heap_is_many;

/// A law, and no work: in the journal of a whole run of an accepted program each mailbox has one history, of no more messages than its bound
/// says where it has one.
pub fn mailboxes_have_one_history()
    ensures { OneHistory }
{
    bounds_are_new();
    accepted_is_kept();
    one_heap_is_many();
    mailboxes_are_threads();
}
