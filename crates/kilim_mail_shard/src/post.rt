//! A mailbox of a turn: its messages, its bound and its clock.

ghost use Rattle.std.specs.Prelude.{◌≡◌, ◌+◌, ◌<◌, ◌≤◌, ◌^◌, ◌==◌, ◌∷◌, ◌++◌, [], ℕ, None, Some, false, OnOk, IfSome, IfNone, MatchOption, length};
ghost use Rattle.std.specs.VecDeque.{deque_capacity};
ghost use Rattle.kilim_program.specs.Program.{Program};
ghost use Rattle.kilim_program.specs.declared.names.BoxName.{BoxName};
ghost use Rattle.kilim_run_journal.specs.declared.entry.Act.TheVariants as act;
ghost use Rattle.kilim_run_board.specs.fibers.Wishes.{IsMessage};
ghost use Rattle.kilim_run_model.specs.State.{empty_mailbox, is_full};
ghost use Rattle.kilim_mail_stamps.specs.Stamps.{mail_after};
ghost use Rattle.kilim_mail_shard.specs.Post.{mail_in, MessagesStand, HasRoom};

use kilim_run_state::Shape;
use kilim_run_trees::Tree;
use kilim_units::NoMemory;
use std::alloc::Global;
use std::collections::VecDeque;
use std::snapshot::Snapshot;

/// A message that waits. Its shape is known of it, and not kept.
#[derive(Drop)]
pub struct Message {
    /// How many messages were put before it.
    pub number: u64,
    /// Its tree.
    pub tree: Tree,
    /// Its shape.
    pub shape: Snapshot<Shape>,
}

/// A mailbox of a turn.
#[derive(Drop)]
pub struct Post {
    /// How many messages it may hold, if it has a bound.
    pub most: Option<u32>,
    /// How many messages were put.
    pub puts: u64,
    /// Those that wait, the first one first.
    pub queue: VecDeque<Message>,
    /// The stamp of its last entry.
    pub clock: u64,
}

// One more behind the others; there is room.
fn push_last(queue: &mut VecDeque<Message>, message: Message)
    requires { length queue.old.items < deque_capacity queue.old }
    ensures { queue.new.items ≡ queue.old.items ++ message ∷ [] }
{
    match queue.push_back(message) {
        Ok(()) => {}
        Err(_) => unreachable!(),
    }
}

// The first leaves the others.
fn pop_first(queue: &mut VecDeque<Message>) -> Option<Message>
    ensures { MatchOption result ((queue.old.items ≡ []) × (queue.new.items ≡ [])) (λ m. queue.old.items ≡ m ∷ queue.new.items) }
{
    queue.pop_front()
}

impl Post {
    /// A mailbox of which there is no entry yet. Takes no memory.
    pub fn new(alloc: Global) -> Post
        ensures mail { mail_in result ≡ empty_mailbox }
        ensures clock { result.clock ≡ 0 }
    {
        Post {
            most: None,
            puts: 0,
            queue: VecDeque::new(alloc),
            clock: 0,
        }
    }

    /// Whether it has a bound, and holds as many messages as it may.
    pub fn is_full(&self) -> bool
        ensures { result ≡ is_full (mail_in self.now) }
    {
        match self.most {
            Some(most) => most as usize <= self.queue.len(),
            None => false,
        }
    }

    /// Whether no message waits.
    pub fn is_empty(&self) -> bool
        ensures { result ≡ (length (mail_in self.now).queue == 0) }
    {
        self.queue.is_empty()
    }

    /// Makes room for one more message. The error is want of memory.
    pub fn reserve(&mut self) -> Result<(), NoMemory>
        ensures mail { mail_in self.new ≡ mail_in self.old }
        ensures clock { self.new.clock ≡ self.old.clock }
        ensures room { OnOk result (HasRoom self.new) }
        ensures messages { (p : Program) → MessagesStand p self.old.queue.items → MessagesStand p self.new.queue.items }
    {
        let Ok(()) = self.queue.reserve(1) else {
            return Err(NoMemory);
        };
        Ok(())
    }

    /// A message is put, with that stamp, into a mailbox that has room and isn't full: its number. Takes no memory.
    pub fn put(&mut self, stamp: u64, tree: Tree, shape: &Shape) -> u64
        requires free { is_full (mail_in self.old) ≡ false }
        requires room { HasRoom self.old }
        requires few { self.old.puts + 1 < 2 ^ 64 }
        ensures put { (box : BoxName) → mail_after (mail_in self.old) (act.Put box result shape.now) ≡ Some (mail_in self.new) }
        ensures clock { self.new.clock ≡ stamp }
        ensures messages { (p : Program) → MessagesStand p self.old.queue.items → IsMessage p tree shape.now → MessagesStand p self.new.queue.items }
    {
        let number = self.puts;
        let message = Message {
            number,
            tree,
            shape: Snapshot::of(shape),
        };
        push_last(&mut self.queue, message);
        self.puts = number + 1;
        self.clock = stamp;
        number
    }

    /// The first message is taken, with that stamp, where there is one. Takes no memory.
    pub fn take(&mut self, stamp: u64) -> Option<Message>
        ensures some { IfSome result (λ m. (box : BoxName) → mail_after (mail_in self.old) (act.Take box m.number) ≡ Some (mail_in self.new)) }
        ensures first { IfSome result (λ m. (mail_in self.old).queue ≡ (m.number, m.shape.value) ∷ (mail_in self.new).queue) }
        ensures clock { IfSome result (λ m. self.new.clock ≡ stamp) }
        ensures message { IfSome result (λ m. (p : Program) → MessagesStand p self.old.queue.items → IsMessage p m.tree m.shape.value) }
        ensures messages { (p : Program) → MessagesStand p self.old.queue.items → MessagesStand p self.new.queue.items }
        ensures none { IfNone result ((mail_in self.old).queue ≡ []) }
        ensures same { IfNone result ((mail_in self.new ≡ mail_in self.old) × (self.new.clock ≡ self.old.clock)) }
    {
        match pop_first(&mut self.queue) {
            Some(message) => {
                self.clock = stamp;
                Some(message)
            }
            None => None,
        }
    }

    /// It gets a bound, with that stamp. Takes no memory.
    pub fn bound(&mut self, stamp: u64, most: u32)
        ensures bound { (box : BoxName) → mail_after (mail_in self.old) (act.Bound box most) ≡ Some (mail_in self.new) }
        ensures clock { self.new.clock ≡ stamp }
        ensures messages { (p : Program) → MessagesStand p self.old.queue.items → MessagesStand p self.new.queue.items }
    {
        self.most = Some(most);
        self.clock = stamp;
    }

    /// An entry that leaves it as it is, with that stamp: it was found empty, or full by a put that ended its task. Takes no memory.
    pub fn mark(&mut self, stamp: u64)
        ensures mail { mail_in self.new ≡ mail_in self.old }
        ensures clock { self.new.clock ≡ stamp }
        ensures messages { (p : Program) → MessagesStand p self.old.queue.items → MessagesStand p self.new.queue.items }
    {
        self.clock = stamp;
    }
}
