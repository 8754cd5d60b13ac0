//! The pool.

ghost use Rattle.std.specs.Prelude.{◌≡◌, ◌∷◌, ◌++◌, ◌+◌, ◌<◌, ◌^◌, List, [], OnOk, OnErr, length, if◌then◌else◌};
ghost use Rattle.std.specs.Option.{option_copied};
ghost use Rattle.kilim_class_pool.specs.declared.entry.Entry.{Entry};
ghost use Rattle.kilim_class_pool.specs.Entries.{is_wide, width_of, slot, slots_of_entry, slots_of, entry_at, count_of};
ghost use Rattle.kilim_class_pool.specs.Slots.{present, AreSlots};

use crate::entry::Entry;
use std::alloc::{AllocError, Global};
use std::marker::Model;

/// A constant pool (JVMS 4.4). Contracts see it as the list of its entries.
#[derive(Drop)]
pub struct Pool {
    // An element for each index from 1 on: its entry, or nothing at the second index of a Long or a Double.
    slots: Vec<Option<Entry>>,
}

impl Model for Pool {
    ghost Value = { List Entry };

    ghost view = { λ p. present p.slots.items };

    ghost invariant = { λ p. AreSlots p.slots.items };
}

// Whether an entry takes two indices.
pub fn is_wide(entry: &Entry) -> bool
    ensures { result ≡ is_wide entry.now }
{
    matches!(entry, Entry::Long(_) | Entry::Double(_))
}

// The entry of a slot, counted from 0.
fn slot(slots: &[Option<Entry>], place: usize) -> Option<&Entry>
    ensures { option_copied result ≡ slot slots.now place }
{
    match slots.get(place) {
        Some(slot) => slot.as_ref(),
        None => None,
    }
}

// Appends the slots of an entry.
fn push_slots(slots: &mut Vec<Option<Entry>>, entry: Entry) -> Result<(), AllocError>
    ensures ok { OnOk result (slots.new.items ≡ slots.old.items ++ slots_of_entry entry) }
    ensures err { OnErr result (slots.new.items ≡ slots.old.items) }
{
    let Ok(()) = slots.reserve(2) else {
        return Err(AllocError);
    };
    let wide = is_wide(&entry);
    slots.push(Some(entry)).unwrap(); // proved: there is room
    if wide {
        slots.push(None).unwrap(); // proved: there is room
    }
    Ok(())
}

impl Pool {
    /// A pool without entries. Takes no memory.
    pub fn new(alloc: Global) -> Self
        ensures { result ≡ [] }
    {
        Pool {
            slots: Vec::new(alloc),
        }
    }

    /// The entry of an index: nothing exactly for 0, past the end, and at the second index of a Long or a Double.
    /// Takes constant time and no memory.
    pub fn entry(&self, index: u16) -> Option<&Entry>
        ensures { option_copied result ≡ entry_at self.now index }
    {
        if index == 0 {
            return None;
        }
        slot(self.slots.as_slice(), usize::from(index - 1))
    }

    /// One more than the greatest index, as a file states it.
    pub fn count(&self) -> u16
        ensures { result ≡ count_of self.now }
    {
        (self.slots.len() + 1) as u16
    }

    // An element for each index from 1 on.
    pub(crate) fn slots(&self) -> &[Option<Entry>]
        ensures slots { result.now ≡ slots_of self.now }
        ensures few { length result.now + 1 < 2 ^ 16 }
    {
        self.slots.as_slice()
    }

    // Appends an entry with one index or two. For want of memory the pool stays as it was.
    pub(crate) fn push(&mut self, entry: Entry) -> Result<(), AllocError>
        requires { count_of self.old + width_of entry < 2 ^ 16 }
        ensures ok { OnOk result (self.new ≡ self.old ++ entry ∷ []) }
        ensures err { OnErr result (self.new ≡ self.old) }
    {
        push_slots(&mut self.slots, entry)
    }
}
