//! What a worker does under each of several turns, one at a time, and what it has of its own.
#![tactic(auto)]

ghost use Rattle.kilim_mail_worker.specs.Closed.{ClosedBalance};

mod alone;
mod inside;
mod moves;
mod own;
mod tasks;
mod turns;
mod under;
mod worker;

pub use inside::{Inside, OpenInside};
pub use own::{Graves, Own};
pub use turns::Turns;
pub use under::{act_under, lend_under, line_up_under, start_under, stop_under};
pub use worker::work;

/// A law, and no work: once all turns are closed and no task is ready, where what lies under each turn balances, each worker is even, and each part's
/// entries are as it knows them, the histories of all tasks and all entries balance.
pub fn closed_balance()
    ensures { ClosedBalance }
{}
