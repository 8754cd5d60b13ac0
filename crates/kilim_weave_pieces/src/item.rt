//! Items of woven code: instructions, and labels with the frames that are declared there.

ghost use Rattle.std.specs.Prelude.{◌≡◌, [], ◌∷◌, OnOk, MatchOption};
ghost use Rattle.kilim_weave_pieces.specs.Items.{item_of, items_of};

use kilim_program::{Frame, Instr};
use kilim_units::NoMemory;
use std::alloc::Global;

/// A place of the plan.
#[derive(Clone, Copy)]
pub enum Label {
    /// An old place.
    Old(u32),
    /// The resume block of a pausable call, by its number from 1.
    Resumes(u32),
}

/// The length of an instruction, in bytes.
#[derive(Clone, Copy)]
pub enum Size {
    Fixed(u32),
    /// A `tableswitch` with so many targets.
    Table(u32),
    /// A `lookupswitch` with so many matches.
    Lookup(u32),
}

/// One item.
#[derive(Drop)]
pub enum Item {
    /// A label, and the frame that is declared there.
    Stands(Label, Option<Frame>),
    /// An instruction, its length, and whether it counts as the task's own.
    Adds(Instr, Size, bool),
}

/// The items of some code, which are put before one another. In contracts `items_of` is their list, in their order.
#[derive(Drop)]
pub struct Items {
    /// The items, the last one first.
    pub reversed: Vec<Item>,
}

impl Items {
    /// No items. Takes no memory.
    pub fn new(alloc: Global) -> Self
        ensures { items_of result ≡ [] }
    {
        Items {
            reversed: Vec::new(alloc),
        }
    }

    /// Puts an item before the others.
    pub fn put(&mut self, item: Item) -> Result<(), NoMemory>
        ensures { OnOk result (items_of self.new ≡ item_of item ∷ items_of self.old) }
    {
        self.reversed.push(item)?;
        Ok(())
    }

    /// Lets the items go, since there was no memory for more, and answers that fault.
    pub fn give_up(self) -> NoMemory {
        NoMemory
    }

    /// Takes the first item. Takes no memory.
    pub fn take(&mut self) -> Option<Item>
        ensures { MatchOption result (items_of self.old ≡ []) (λ item. items_of self.old ≡ item_of item ∷ items_of self.new) }
    {
        match self.reversed.pop() {
            Some(item) => Some(item),
            None => None,
        }
    }
}
