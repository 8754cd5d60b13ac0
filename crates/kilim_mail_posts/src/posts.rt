//! The mailboxes that an act has named.

ghost use Rattle.std.specs.Prelude.{◌≡◌, ◌+◌, ◌<◌, ◌^◌, ◌==◌, ◌∷◌, [], ℕ, List, false, None, OnOk, IfSome, IfNone, length};
ghost use Rattle.kilim_program.specs.Program.{Program};
ghost use Rattle.kilim_run_state.specs.declared.value.Token.{Token};
ghost use Rattle.kilim_run_journal.specs.declared.entry.Act.TheVariants as act;
ghost use Rattle.kilim_run_board.specs.fibers.Wishes.{IsMessage};
ghost use Rattle.kilim_run_model.specs.State.{is_full};
ghost use Rattle.kilim_mail_posts.specs.Posts.{named, box_at, HasRoomAt, AllMessages, SameBoxes, Writes, Marks};

use kilim_mail_shard::{Message, Post};
use kilim_program::BoxName;
use kilim_run_state::Shape;
use kilim_run_trees::Tree;
use kilim_units::NoMemory;
use std::alloc::Global;
use std::collections::BTreeMap;

/// The mailboxes that an act has named, each with its clock. Every other mailbox is empty, and its clock is 0.
#[derive(Drop)]
pub struct Posts {
    /// By the task and the number of their names.
    pub by_name: BTreeMap<(u32, u32), Post>,
    /// Where new mailboxes take their memory.
    pub alloc: Global,
}

impl Posts {
    /// No mailbox is named. Takes no memory.
    pub fn new(alloc: Global) -> Posts
        ensures { result.by_name.entries ≡ [] }
    {
        Posts {
            by_name: BTreeMap::new(alloc),
            alloc,
        }
    }

    /// Whether a mailbox is full.
    pub fn is_full(&self, name: BoxName) -> bool
        ensures { result ≡ is_full (box_at self.now name).mail }
    {
        match self.by_name.get(&(name.task, name.number)) {
            Some(post) => post.is_full(),
            None => false,
        }
    }

    /// Whether no message waits in a mailbox.
    pub fn is_empty(&self, name: BoxName) -> bool
        ensures { result ≡ (length (box_at self.now name).mail.queue == 0) }
    {
        match self.by_name.get(&(name.task, name.number)) {
            Some(post) => post.is_empty(),
            None => true,
        }
    }

    /// The stamp of a mailbox's last entry, and 0 where there is none.
    pub fn clock(&self, name: BoxName) -> u64
        ensures { result ≡ (box_at self.now name).clock }
    {
        match self.by_name.get(&(name.task, name.number)) {
            Some(post) => post.clock,
            None => 0,
        }
    }

    // A mailbox that isn't named yet, with room for one message.
    fn add(&mut self, name: BoxName) -> Result<(), NoMemory>
        requires { named self.old name ≡ None }
        ensures same { SameBoxes (box_at self.old) (box_at self.new) }
        ensures room { OnOk result (HasRoomAt self.new name) }
        ensures messages { (p : Program) → AllMessages p self.old → AllMessages p self.new }
    {
        let mut post = Post::new(self.alloc);
        let Ok(()) = post.reserve() else {
            return Err(NoMemory);
        };
        let Ok(_) = self.by_name.insert((name.task, name.number), post) else {
            return Err(NoMemory);
        };
        Ok(())
    }

    /// Makes room for one message in a mailbox. The error is want of memory.
    pub fn reserve(&mut self, name: BoxName) -> Result<(), NoMemory>
        ensures same { SameBoxes (box_at self.old) (box_at self.new) }
        ensures room { OnOk result (HasRoomAt self.new name) }
        ensures messages { (p : Program) → AllMessages p self.old → AllMessages p self.new }
    {
        match self.by_name.get_mut(&(name.task, name.number)) {
            Some(post) => post.reserve(),
            None => self.add(name),
        }
    }

    /// A message is put, with that stamp, into a mailbox that has room and isn't full: its number. Takes no memory.
    pub fn put(&mut self, name: BoxName, stamp: u64, tree: Tree, shape: &Shape) -> u64
        requires room { HasRoomAt self.old name }
        requires free { is_full (box_at self.old name).mail ≡ false }
        requires few { (box_at self.old name).mail.puts + 1 < 2 ^ 64 }
        ensures writes { Writes self.old name (act.Put name result shape.now) stamp self.new }
        ensures messages { (p : Program) → AllMessages p self.old → IsMessage p tree shape.now → AllMessages p self.new }
    {
        match self.by_name.get_mut(&(name.task, name.number)) {
            Some(post) => post.put(stamp, tree, shape),
            None => unreachable!(),
        }
    }

    /// The first message of a mailbox is taken, with that stamp, where there is one. Takes no memory.
    pub fn take(&mut self, name: BoxName, stamp: u64) -> Option<Message>
        ensures some { IfSome result (λ m. Writes self.old name (act.Take name m.number) stamp self.new) }
        ensures first { IfSome result (λ m. (rest : List (ℕ × List Token)) × ((box_at self.old name).mail.queue ≡ (m.number, m.shape.value) ∷ rest)) }
        ensures message { IfSome result (λ m. (p : Program) → AllMessages p self.old → IsMessage p m.tree m.shape.value) }
        ensures messages { (p : Program) → AllMessages p self.old → AllMessages p self.new }
        ensures none { IfNone result ((box_at self.old name).mail.queue ≡ []) }
        ensures same { IfNone result (SameBoxes (box_at self.old) (box_at self.new)) }
    {
        match self.by_name.get_mut(&(name.task, name.number)) {
            Some(post) => post.take(stamp),
            None => None,
        }
    }

    /// It gets a bound, with that stamp. Takes no memory.
    pub fn bound(&mut self, name: BoxName, stamp: u64, most: u32)
        requires room { HasRoomAt self.old name }
        ensures writes { Writes self.old name (act.Bound name most) stamp self.new }
        ensures messages { (p : Program) → AllMessages p self.old → AllMessages p self.new }
    {
        match self.by_name.get_mut(&(name.task, name.number)) {
            Some(post) => post.bound(stamp, most),
            None => unreachable!(),
        }
    }

    /// An entry that leaves it as it is, with that stamp. Takes no memory.
    pub fn mark(&mut self, name: BoxName, stamp: u64)
        requires room { HasRoomAt self.old name }
        ensures marks { Marks self.old name stamp self.new }
        ensures messages { (p : Program) → AllMessages p self.old → AllMessages p self.new }
    {
        match self.by_name.get_mut(&(name.task, name.number)) {
            Some(post) => post.mark(stamp),
            None => unreachable!(),
        }
    }
}
