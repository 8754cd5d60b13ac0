//! An entry into a pool.

ghost use Rattle.std.specs.Prelude.{◌≡◌, ◌≢◌, ◌↔◌, ◌+◌, ◌<◌, ◌^◌, ◌∷◌, ◌++◌, ℕ, List, [], Option, Some, Err, OnErr, IfOk, IsTrue};
ghost use Rattle.kilim_class_pool.specs.declared.fault.AddFault.TheVariants as add;
ghost use Rattle.kilim_class_pool.specs.Entries.{width_of, entry_at, count_of};
ghost use Rattle.kilim_class_pool.specs.Adding.{Adds, IsFull, IsFirstPlace};

use crate::entry::Entry;
use crate::fault::AddFault;
use crate::pool::{Pool, is_wide};

// Whether a slot has an equal entry.
fn has(slot: &Option<Entry>, entry: &Entry) -> bool
    ensures { IsTrue result ↔ (slot.now ≡ Some entry.now) }
{
    match slot {
        Some(other) => other.is_same(entry),
        None => false,
    }
}

// The place, from 0, of the first slot with an equal entry.
fn position_of(slots: &[Option<Entry>], entry: &Entry) -> Option<usize>
    ensures { IsFirstPlace slots.now entry.now result }
{
    for (place, slot) in slots.iter().enumerate() {
        if has(slot, entry) {
            return Some(place);
        }
    }
    None
}

fn width_of(entry: &Entry) -> usize
    ensures { result ≡ width_of entry.now }
{
    if is_wide(entry) { 2 } else { 1 }
}

impl Pool {
    /// The index of an entry: the first that an equal entry has, where there is one; else the entry is appended.
    ///
    /// It answers `Full`, and the pool stays as it was, exactly where no equal entry is there and the count of indices
    /// would pass 65,535. Time is linear in the number of entries.
    pub fn add(&mut self, entry: Entry) -> Result<u16, AddFault>
        ensures added { IfOk result (λ index. Adds self.old entry self.new index) }
        ensures full { (result ≡ Err add.Full) ↔ IsFull self.old entry }
        ensures err { OnErr result (self.new ≡ self.old) }
        // Each index that was there keeps its entry.
        ensures keeps { (index : ℕ) → index < count_of self.old → entry_at self.new index ≡ entry_at self.old index }
        ensures now { IfOk result (λ index. entry_at self.new index ≡ Some entry) }
    {
        if let Some(place) = position_of(self.slots(), &entry) {
            return Ok((place + 1) as u16);
        }
        let index = self.count();
        if usize::from(index) + width_of(&entry) > 65_535 {
            return Err(AddFault::Full);
        }
        match self.push(entry) {
            Ok(()) => Ok(index),
            Err(_) => Err(AddFault::Memory),
        }
    }
}
