//! The turn itself.
ghost use Rattle.std.specs.Prelude.{◌≡◌};

use crate::cells::Cells;
use crate::kept::{Kept, Rule};
use crate::view::View;
use atomic_table::Table;
use std::alloc::Global;
use std::snapshot::Snapshot;
use std::sync::atomic::{AtomicU64, Ordering};

/// One value that several workers take by turns.
pub struct Turn<B: Cells + Drop> {
    pub(crate) table: Table<Option<Kept<B>>, View, Snapshot<B>, Rule, Global>,
    // How many sleep on the table's word, since somebody else has the turn, or are about to.
    pub(crate) waiting: AtomicU64,
    // How many rest.
    pub(crate) resting: AtomicU64,
    // How often it was rung. Those that rest sleep on it.
    pub(crate) bell: AtomicU64,
    ghost words: { table.shared.table_id.words ≡ 1 },
    ghost slots: { table.shared.table_id.slots ≡ 1 },
}

impl<B: Cells + Drop> Turn<B> {
    /// Wakes one of those that rest, if any does.
    pub fn ring(&self) {
        if self.resting.load(Ordering::SeqCst) > 0 {
            let _ = self.bell.fetch_add(1, Ordering::SeqCst);
            self.bell.wake_one();
        }
    }
}
