//! The mailboxes of a replay: the names of the objects that wait in them.

ghost use Rattle.std.specs.Prelude.{◌≡◌, ◌+◌, ◌++◌, ◌∷◌, [], ◌==◌, length, None, Some, IfSome, IfNone, MatchOption, IfOk, OnOk};
ghost use Rattle.kilim_run_model.specs.State.{bounded, is_full, is_full_at, with_message, with_queue, with_mailbox};
ghost use Rattle.kilim_replay.specs.Mailboxes.{named, mail_of, SameMails};

use kilim_program::BoxName;
use kilim_units::{NoMemory, no_room};
use std::alloc::Global;
use std::collections::{BTreeMap, VecDeque};

/// A mailbox.
#[derive(Drop)]
pub struct Post {
    /// How many messages it may hold, if it has a bound.
    pub most: Option<u32>,
    /// How many messages were put into it.
    pub puts: u64,
    /// Those that wait there, with the number of their put.
    pub queue: VecDeque<(u64, u32)>,
}

// Puts a message at the end, and says its number.
fn put_in(post: &mut Post, root: u32) -> Result<u64, NoMemory>
    ensures number { IfOk result (λ n. n ≡ post.old.puts) }
    ensures most { OnOk result (post.new.most ≡ post.old.most) }
    ensures puts { OnOk result (post.new.puts ≡ post.old.puts + 1) }
    ensures queue { OnOk result (post.new.queue.items ≡ post.old.queue.items ++ (post.old.puts, root) ∷ []) }
{
    let number = post.puts;
    let Some(after) = number.checked_add(1) else {
        // room: a mailbox would have 2^64 puts
        return Err(no_room());
    };
    let Ok(()) = post.queue.push_back((number, root)) else {
        return Err(NoMemory);
    };
    post.puts = after;
    Ok(number)
}

// Takes the first message.
fn take_from(post: &mut Post) -> Option<(u64, u32)>
    ensures most { post.new.most ≡ post.old.most }
    ensures puts { post.new.puts ≡ post.old.puts }
    ensures queue { MatchOption result ((post.old.queue.items ≡ []) × (post.new.queue.items ≡ [])) (λ first. post.old.queue.items ≡ first ∷ post.new.queue.items) }
{
    post.queue.pop_front()
}

// Gives a bound.
fn bound_in(post: &mut Post, most: u32)
    ensures most { post.new.most ≡ Some most }
    ensures puts { post.new.puts ≡ post.old.puts }
    ensures queue { post.new.queue.items ≡ post.old.queue.items }
{
    post.most = Some(most);
}

// Whether it holds as many messages as it may.
fn is_filled(post: &Post) -> bool
    ensures { result ≡ is_full_at post.now.most (length post.now.queue.items) }
{
    match post.most {
        Some(most) => most as usize <= post.queue.len(),
        None => false,
    }
}

/// The mailboxes that have a bound, or into which a message was put. Every other mailbox is empty, and has none.
#[derive(Drop)]
pub struct Mailboxes {
    /// By the task and the number of their names.
    pub by_name: BTreeMap<(u32, u32), Post>,
    /// Where new mailboxes take their memory.
    pub alloc: Global,
}

impl Mailboxes {
    /// No message was put. Takes no memory.
    pub fn new(alloc: Global) -> Mailboxes
        ensures { result.by_name.entries ≡ [] }
    {
        Mailboxes {
            by_name: BTreeMap::new(alloc),
            alloc,
        }
    }

    /// Whether no message waits in a mailbox.
    pub fn is_empty(&self, name: BoxName) -> bool
        ensures { result ≡ (length (mail_of self.now name).queue == 0) }
    {
        match self.by_name.get(&(name.task, name.number)) {
            Some(post) => post.queue.is_empty(),
            None => true,
        }
    }

    /// Whether a mailbox holds as many messages as it may.
    pub fn is_full(&self, name: BoxName) -> bool
        ensures { result ≡ is_full (mail_of self.now name) }
    {
        match self.by_name.get(&(name.task, name.number)) {
            Some(post) => is_filled(post),
            None => false,
        }
    }

    /// A mailbox gets a bound.
    pub fn bound(&mut self, name: BoxName, most: u32) -> Result<(), NoMemory>
        ensures { OnOk result (SameMails (with_mailbox (mail_of self.old) name (bounded (mail_of self.old name) most)) (mail_of self.new)) }
    {
        match self.by_name.get_mut(&(name.task, name.number)) {
            Some(post) => {
                bound_in(post, most);
                Ok(())
            }
            None => self.add_bounded(name, most),
        }
    }

    // A mailbox with a bound, into which nothing was put.
    fn add_bounded(&mut self, name: BoxName, most: u32) -> Result<(), NoMemory>
        requires { named self.old name ≡ None }
        ensures { OnOk result (SameMails (with_mailbox (mail_of self.old) name (bounded (mail_of self.old name) most)) (mail_of self.new)) }
    {
        let post = Post {
            most: Some(most),
            puts: 0,
            queue: VecDeque::new(self.alloc),
        };
        let Ok(_) = self.by_name.insert((name.task, name.number), post) else {
            return Err(NoMemory);
        };
        Ok(())
    }

    /// Puts a message into a mailbox, and says its number.
    pub fn put(&mut self, name: BoxName, root: u32) -> Result<u64, NoMemory>
        ensures number { IfOk result (λ n. n ≡ (mail_of self.old name).puts) }
        ensures mails { OnOk result (SameMails (with_mailbox (mail_of self.old) name (with_message (mail_of self.old name) root)) (mail_of self.new)) }
    {
        match self.by_name.get_mut(&(name.task, name.number)) {
            Some(post) => put_in(post, root),
            None => self.add(name, root),
        }
    }

    // A mailbox into which nothing was put, with one message.
    fn add(&mut self, name: BoxName, root: u32) -> Result<u64, NoMemory>
        requires { named self.old name ≡ None }
        ensures number { IfOk result (λ n. n ≡ (mail_of self.old name).puts) }
        ensures mails { OnOk result (SameMails (with_mailbox (mail_of self.old) name (with_message (mail_of self.old name) root)) (mail_of self.new)) }
    {
        let mut post = Post {
            most: None,
            puts: 0,
            queue: VecDeque::new(self.alloc),
        };
        let Ok(number) = put_in(&mut post, root) else {
            return Err(NoMemory);
        };
        let Ok(_) = self.by_name.insert((name.task, name.number), post) else {
            return Err(NoMemory);
        };
        Ok(number)
    }

    /// Takes the first message of a mailbox, with its number. Takes no memory.
    pub fn take(&mut self, name: BoxName) -> Option<(u64, u32)>
        ensures some { IfSome result (λ m. (mail_of self.old name).queue ≡ m ∷ (mail_of self.new name).queue) }
        ensures mails { IfSome result (λ _. SameMails (with_mailbox (mail_of self.old) name (with_queue (mail_of self.old name) (mail_of self.new name).queue)) (mail_of self.new)) }
        ensures none { IfNone result ((mail_of self.old name).queue ≡ []) }
        ensures same { IfNone result (SameMails (mail_of self.old) (mail_of self.new)) }
    {
        match self.by_name.get_mut(&(name.task, name.number)) {
            Some(post) => take_from(post),
            None => None,
        }
    }
}
