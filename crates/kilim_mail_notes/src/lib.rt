//! Who brought, took and made what under a turn: notes that only clauses read, and what they add up to over many turns and workers.
#![tactic(auto)]

ghost use Rattle.kilim_mail_notes.specs.Sums.{AllIsClosed};

mod histories;
mod notes;

pub use histories::{Did, History, Mark, Past};
pub use notes::{Ledger, Note, Notes};

/// A law, and no work: where what lies under each of several turns balances with what was noted there, and each of several workers is even, by
/// what all of its passes show, all histories are the entries that were made.
pub fn all_is_closed()
    ensures { AllIsClosed }
{}
