//! A run with a turn for each group of mailboxes: turns of several values are opened, and closed.
#![tactic(auto)]

mod dealing;
mod opening;

pub use dealing::{collect_into, deal_from};
pub use opening::{close_each, drop_each, open_each};
