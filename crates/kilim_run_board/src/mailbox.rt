//! A mailbox.

ghost use Rattle.std.specs.Prelude.{◌≡◌, ◌+◌, ◌<◌, ◌≤◌, ◌^◌, ◌++◌, ◌∷◌, [], ◌==◌, not, length, OnOk, OnErr, MatchOption, None, Some, false};
ghost use Rattle.kilim_run_model.specs.State.{is_full_at};
ghost use Rattle.kilim_run_board.specs.mailbox.Calls.{CallsAreOneThread};

use kilim_run_trees::Tree;
use kilim_units::NoMemory;
use std::alloc::Global;
use std::collections::VecDeque;
use std::marker::Model;

/// A mailbox. Contracts see its bound, the number of puts, the messages that wait, with their numbers, and the room there is for
/// messages.
#[derive(Drop)]
pub struct Mailbox {
    most: Option<u32>,
    puts: u64,
    queue: VecDeque<(u64, Tree)>,
}

impl Model for Mailbox {
    ghost use Rattle.std.specs.VecDeque.{deque_capacity};
    ghost use Rattle.kilim_run_board.specs.mailbox.Mailbox.{Content};

    ghost Value = { Content };

    ghost view = { λ m. record { most = m.most; puts = m.puts; queue = m.queue.items; room = deque_capacity m.queue } };
}

impl Mailbox {
    /// An empty mailbox without a bound. Takes no memory.
    pub fn new(alloc: Global) -> Mailbox
        ensures most { result.most ≡ None }
        ensures puts { result.puts ≡ 0 }
        ensures queue { result.queue ≡ [] }
    {
        Mailbox {
            most: None,
            puts: 0,
            queue: VecDeque::new(alloc),
        }
    }

    /// Bounds a mailbox that is new: it holds so many messages at the most, one or more. Takes no memory.
    pub fn bound(&mut self, most: u32)
        requires unbounded { self.old.most ≡ None }
        requires new { self.old.puts ≡ 0 }
        requires some { 1 ≤ most }
        ensures most { self.new.most ≡ Some most }
        ensures puts { self.new.puts ≡ self.old.puts }
        ensures queue { self.new.queue ≡ self.old.queue }
        ensures room { self.new.room ≡ self.old.room }
    {
        self.most = Some(most);
    }

    /// Whether it has a bound, and holds as many messages as it may.
    pub fn full(&self) -> bool
        ensures { result ≡ is_full_at self.now.most (length self.now.queue) }
    {
        match self.most {
            Some(most) => most as usize <= self.queue.len(),
            None => false,
        }
    }

    /// Makes room for one more message.
    pub fn reserve(&mut self) -> Result<(), NoMemory>
        ensures most { self.new.most ≡ self.old.most }
        ensures puts { self.new.puts ≡ self.old.puts }
        ensures queue { self.new.queue ≡ self.old.queue }
        ensures room { OnOk result (length self.new.queue < self.new.room) }
    {
        self.queue.reserve(1)?;
        Ok(())
    }

    /// Puts a message at the end of a mailbox that isn't full, and says its number. Takes no memory.
    pub fn put(&mut self, tree: Tree) -> u64
        requires free { is_full_at self.old.most (length self.old.queue) ≡ false }
        requires room { length self.old.queue < self.old.room }
        requires few { self.old.puts + 1 < 2 ^ 64 }
        ensures number { result ≡ self.old.puts }
        ensures most { self.new.most ≡ self.old.most }
        ensures puts { self.new.puts ≡ self.old.puts + 1 }
        ensures queue { self.new.queue ≡ self.old.queue ++ (self.old.puts, tree) ∷ [] }
    {
        let number = self.puts;
        match self.queue.push_back((number, tree)) {
            Ok(()) => {}
            Err(_) => unreachable!(),
        }
        self.puts = number + 1;
        number
    }

    /// Takes the first message out, with its number. Takes no memory.
    pub fn take(&mut self) -> Option<(u64, Tree)>
        ensures most { self.new.most ≡ self.old.most }
        ensures puts { self.new.puts ≡ self.old.puts }
        ensures queue { MatchOption result ((self.old.queue ≡ []) × (self.new.queue ≡ [])) (λ first. self.old.queue ≡ first ∷ self.new.queue) }
    {
        self.queue.pop_front()
    }

    /// Whether a message waits.
    pub fn probe(&self) -> bool
        ensures { result ≡ not (length self.now.queue == 0) }
    {
        !self.queue.is_empty()
    }
}

/// A law, and no work: whatever is called on a new mailbox, what there is to say of the calls is one thread of messages.
pub fn calls_are_one_thread()
    ensures { CallsAreOneThread }
{}
