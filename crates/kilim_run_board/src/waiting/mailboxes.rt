//! The mailboxes of the board.

ghost use Rattle.std.specs.Prelude.{◌≡◌, ◌<◌, ◌≤◌, ◌+◌, ◌^◌, ◌==◌, false, None, IfSome, IfNone, OnOk, ◌∷◌, [], length};
ghost use Rattle.kilim_run_model.specs.State.{bounded, is_full, with_message, with_queue, with_mailbox};
ghost use Rattle.kilim_run_board.specs.waiting.Mailboxes.{named, mail_of, has_to_wait, SameMails, HasRoom};

use crate::mailbox::Mailbox;
use kilim_program::BoxName;
use kilim_run_model::Waits;
use kilim_run_trees::Tree;
use kilim_units::NoMemory;
use std::alloc::Global;
use std::collections::BTreeMap;

/// The mailboxes that an act has named. Every other mailbox is empty.
#[derive(Drop)]
pub struct Mailboxes {
    /// By the task and the number of their names.
    pub by_name: BTreeMap<(u32, u32), Mailbox>,
    /// Where new mailboxes take their memory.
    pub alloc: Global,
}

impl Mailboxes {
    /// No mailbox is named. Takes no memory.
    pub fn new(alloc: Global) -> Mailboxes
        ensures { result.by_name.entries ≡ [] }
    {
        Mailboxes {
            by_name: BTreeMap::new(alloc),
            alloc,
        }
    }

    /// Whether no message waits in a mailbox.
    pub fn is_empty(&self, name: BoxName) -> bool
        ensures { result ≡ (length (mail_of self.now name).queue == 0) }
    {
        match self.by_name.get(&(name.task, name.number)) {
            Some(mailbox) => !mailbox.probe(),
            None => true,
        }
    }

    /// Whether a mailbox is full.
    pub fn is_full(&self, name: BoxName) -> bool
        ensures { result ≡ is_full (mail_of self.now name) }
    {
        match self.by_name.get(&(name.task, name.number)) {
            Some(mailbox) => mailbox.full(),
            None => false,
        }
    }

    /// Makes room for one message in a mailbox.
    pub fn reserve_message(&mut self, name: BoxName) -> Result<(), NoMemory>
        ensures same { SameMails (mail_of self.old) (mail_of self.new) }
        ensures room { OnOk result (HasRoom self.new name) }
    {
        match self.by_name.get_mut(&(name.task, name.number)) {
            Some(mailbox) => mailbox.reserve(),
            None => self.add(name),
        }
    }

    // A mailbox that isn't named yet, with room for one message.
    fn add(&mut self, name: BoxName) -> Result<(), NoMemory>
        requires { named self.old name ≡ None }
        ensures same { SameMails (mail_of self.old) (mail_of self.new) }
        ensures room { OnOk result (HasRoom self.new name) }
    {
        let mut mailbox = Mailbox::new(self.alloc);
        let Ok(()) = mailbox.reserve() else {
            return Err(NoMemory);
        };
        let Ok(_) = self.by_name.insert((name.task, name.number), mailbox) else {
            return Err(NoMemory);
        };
        Ok(())
    }

    /// Puts a message into a mailbox that has room and isn't full, and says its number. Takes no memory.
    pub fn put_message(&mut self, name: BoxName, tree: Tree) -> u64
        requires room { HasRoom self.old name }
        requires few { (mail_of self.old name).puts + 1 < 2 ^ 64 }
        requires free { is_full (mail_of self.old name) ≡ false }
        ensures number { result ≡ (mail_of self.old name).puts }
        ensures mails { SameMails (with_mailbox (mail_of self.old) name (with_message (mail_of self.old name) tree)) (mail_of self.new) }
    {
        match self.by_name.get_mut(&(name.task, name.number)) {
            Some(mailbox) => mailbox.put(tree),
            None => unreachable!(),
        }
    }

    /// Bounds a mailbox that is named and new, and has no bound. Takes no memory.
    pub fn bound(&mut self, name: BoxName, most: u32)
        requires room { HasRoom self.old name }
        requires some { 1 ≤ most }
        requires unbounded { (mail_of self.old name).most ≡ None }
        requires new { (mail_of self.old name).puts ≡ 0 }
        ensures { SameMails (with_mailbox (mail_of self.old) name (bounded (mail_of self.old name) most)) (mail_of self.new) }
    {
        match self.by_name.get_mut(&(name.task, name.number)) {
            Some(mailbox) => mailbox.bound(most),
            None => unreachable!(),
        }
    }

    /// Whether there is to wait for this.
    pub fn has_to_wait(&self, waits: Waits) -> bool
        ensures { result ≡ has_to_wait (mail_of self.now) waits }
    {
        match waits {
            Waits::Take(name) => self.is_empty(name),
            Waits::Put(name) => self.is_full(name),
        }
    }

    /// Takes the first message of a mailbox, with its number. Takes no memory.
    pub fn take_message(&mut self, name: BoxName) -> Option<(u64, Tree)>
        ensures some { IfSome result (λ m. (mail_of self.old name).queue ≡ m ∷ (mail_of self.new name).queue) }
        ensures mails { IfSome result (λ _. SameMails (with_mailbox (mail_of self.old) name (with_queue (mail_of self.old name) (mail_of self.new name).queue)) (mail_of self.new)) }
        ensures none { IfNone result ((mail_of self.old name).queue ≡ []) }
        ensures same { IfNone result (SameMails (mail_of self.old) (mail_of self.new)) }
    {
        match self.by_name.get_mut(&(name.task, name.number)) {
            Some(mailbox) => mailbox.take(),
            None => None,
        }
    }
}
