//! Histories of tasks, wherever their fibers lie, and the entries of a run, wherever they were noted: where both are the same, the entries
//! are those of a run.
#![tactic(auto)]

ghost use Rattle.kilim_mail_ledger.specs.Closing.{ClosedRuns};
ghost use Rattle.kilim_mail_ledger.specs.Goings.{AskersStand, HistoriesEnd, HistoriesGoOn};
ghost use Rattle.kilim_mail_ledger.specs.Ledger.{BalancedRuns};
ghost use Rattle.kilim_mail_ledger.specs.Mailboxes.{ActsAreNoted, ItemsStay, WaitingAreKnown};

mod items;

pub use items::{Dated, Item};

/// A law, and no work: where the histories of all tasks and the entries of all parts are the same items, and each history is that of a
/// thread, the parts are those of a stamped run.
pub fn balanced_runs()
    ensures { BalancedRuns }
{}

/// A law, and no work: where also each task has ended, or waits at a mailbox that is empty or full, the run is at rest.
pub fn closed_runs()
    ensures { ClosedRuns }
{}

/// A law, and no work: an act that a mailbox allows, noted with a stamp above the mailbox's clock, leaves the entries of each mailbox a run
/// that leads to what the mailbox holds.
pub fn acts_are_noted()
    ensures { ActsAreNoted }
{}

/// A law, and no work: a message that waits has the shape that was put under its number.
pub fn waiting_are_known()
    ensures { WaitingAreKnown }
{}

/// A law, and no work: what the entries of a turn tell of its tasks' histories stays as more entries are noted.
pub fn items_stay()
    ensures { ItemsStay }
{}

/// A law, and no work: an answer that makes a deed, with a stamp above the task's clock, makes the task's history one more that is that of a
/// thread.
pub fn histories_go_on()
    ensures { HistoriesGoOn }
{}

/// A law, and no work: so does an end, by the task itself, for want of tasks or at a full mailbox.
pub fn histories_end()
    ensures { HistoriesEnd }
{}

/// A law, and no work: a thread that asks for a message, or for room, stands where it may have to wait for it.
pub fn askers_stand()
    ensures { AskersStand }
{}
