//! The fibers that wait at mailboxes.

ghost use Rattle.std.specs.Prelude.{◌≡◌, ◌<◌, ◌≤◌, ◌++◌, ◌∷◌, [], None, IfSome, IfNone, MatchOption, IfOk, OnOk, List, length};
ghost use Rattle.std.specs.Vec.{vec_capacity};
ghost use Rattle.std.specs.VecDeque.{deque_items};
ghost use Rattle.std.specs.BTreeMap.{get};
ghost use Rattle.kilim_run_board.specs.waiting.Parked.{woken};
ghost use Rattle.kilim_run_board.specs.waiting.Parked.{at_wait, in_order, key_of, wait_cmp, wait_of, StandsBehind, NobodyAt};
ghost use Rattle.kilim_run_board.specs.waiting.Parked.{waiter_index};
ghost use Rattle.kilim_run_board.specs.declared.waiting.parked.Waiter.{Waiter};
ghost use Rattle.kilim_run_board.specs.Places.{same_wait};
ghost use Rattle.kilim_run_model.specs.State.{same_box};

use kilim_program::BoxName;
use kilim_run_model::Waits;
use kilim_units::NoMemory;
use std::alloc::Global;
use std::collections::{BTreeMap, VecDeque};
use std::marker::Model;

/// A fiber that waits at a mailbox.
#[derive(Drop)]
pub struct Waiter<F> {
    /// What it waits for.
    pub waits: Waits,
    /// The fiber.
    pub fiber: F,
}

/// The fibers that wait at mailboxes, to take or to put. Contracts see them as a list, of those that wait for the same the first that came
/// in front, and the room that there is for them.
#[derive(Drop)]
pub struct Parked<F> {
    // by whether they wait to put, and the task and the number of the mailbox's name
    by_wait: BTreeMap<(bool, u32, u32), VecDeque<F>>,
    // Those that found no place among these, in the order in which they came. While there are any, all others that come
    // stand behind them.
    apart: Vec<Waiter<F>>,
    alloc: Global,
}

impl<F> Model for Parked<F> {
    ghost use Rattle.std.specs.Prelude.{◌++◌};
    ghost use Rattle.std.specs.Vec.{vec_capacity};
    ghost use Rattle.std.specs.VecDeque.{deque_items};
    ghost use Rattle.std.specs.Coded.{codes};
    ghost use Rattle.kilim_run_board.specs.waiting.Parked.{Waiting, in_order};

    ghost Value = { Waiting F };

    ghost coded = { Prim.hlevel (codes, F.code) };

    ghost view = { λ p. record { items = in_order deque_items p.by_wait.entries ++ p.apart.items; room = vec_capacity p.apart } };
}

// Whether two names are those of one mailbox.
fn is_box(a: BoxName, b: BoxName) -> bool
    ensures { result ≡ same_box a b }
{
    a.task == b.task && a.number == b.number
}

// Whether two wait for the same.
fn is_same(a: Waits, b: Waits) -> bool
    ensures { result ≡ same_wait a b }
{
    match a {
        Waits::Take(mailbox) => match b {
            Waits::Take(other) => is_box(mailbox, other),
            Waits::Put(_) => false,
        },
        Waits::Put(mailbox) => match b {
            Waits::Take(_) => false,
            Waits::Put(other) => is_box(mailbox, other),
        },
    }
}

// The key of what is waited for.
fn key_of(waits: Waits) -> (bool, u32, u32)
    ensures { result ≡ key_of waits }
{
    match waits {
        Waits::Take(mailbox) => (false, mailbox.task, mailbox.number),
        Waits::Put(mailbox) => (true, mailbox.task, mailbox.number),
    }
}

// What is waited for by that key.
fn wait_of(key: (bool, u32, u32)) -> Waits
    ensures { result ≡ wait_of key }
{
    let mailbox = BoxName {
        task: key.1,
        number: key.2,
    };
    if key.0 {
        Waits::Put(mailbox)
    } else {
        Waits::Take(mailbox)
    }
}

// ---- in order

// Nobody waits by this key yet: places for so many fibers.
fn open<F: Drop>(
    queues: &mut BTreeMap<(bool, u32, u32), VecDeque<F>>,
    alloc: Global,
    key: (bool, u32, u32),
    more: usize,
) -> Result<(), NoMemory>
    requires { get wait_cmp queues.old key ≡ None }
    ensures { in_order deque_items queues.new.entries ≡ in_order deque_items queues.old.entries }
{
    let mut queue = VecDeque::new(alloc);
    let Ok(()) = queue.reserve(more) else {
        return Err(NoMemory);
    };
    let Ok(_) = queues.insert(key, queue) else {
        return Err(NoMemory);
    };
    Ok(())
}

// Makes places for so many more fibers that wait by this key.
fn make_places<F: Drop>(
    queues: &mut BTreeMap<(bool, u32, u32), VecDeque<F>>,
    alloc: Global,
    key: (bool, u32, u32),
    more: usize,
) -> Result<(), NoMemory>
    ensures { in_order deque_items queues.new.entries ≡ in_order deque_items queues.old.entries }
{
    match queues.get_mut(&key) {
        Some(queue) => match queue.reserve(more) {
            Ok(()) => Ok(()),
            Err(_) => Err(NoMemory),
        },
        None => open(queues, alloc, key, more),
    }
}

// A fiber stands behind the others that wait for the same. It comes back where there is no place for it.
fn stand_behind<F: Drop>(
    queues: &mut BTreeMap<(bool, u32, u32), VecDeque<F>>,
    key: (bool, u32, u32),
    fiber: F,
) -> Option<F>
    ensures stands { IfNone result (StandsBehind (record { waits = wait_of key; fiber = fiber }) (in_order deque_items queues.old.entries) (in_order deque_items queues.new.entries)) }
    ensures back { IfSome result (λ f. f ≡ fiber) }
    ensures same { IfSome result (λ f. in_order deque_items queues.new.entries ≡ in_order deque_items queues.old.entries) }
{
    match queues.get_mut(&key) {
        Some(queue) => {
            if queue.len() < queue.capacity() {
                match queue.push_back(fiber) {
                    Ok(()) => None,
                    Err(_) => unreachable!(),
                }
            } else {
                Some(fiber)
            }
        }
        None => Some(fiber),
    }
}

// The first fiber leaves a queue.
fn first_of<F: Drop>(queue: &mut VecDeque<F>) -> Option<F>
    ensures { MatchOption result ((queue.old.items ≡ []) × (queue.new.items ≡ [])) (λ f. queue.old.items ≡ f ∷ queue.new.items) }
{
    queue.pop_front()
}

// The first fiber that waits by this key leaves the others.
fn first_at<F: Drop>(
    queues: &mut BTreeMap<(bool, u32, u32), VecDeque<F>>,
    key: (bool, u32, u32),
) -> Option<F>
    ensures some { IfSome result (λ f. (rest : List (Waiter F)) → woken (wait_of key) (in_order deque_items queues.old.entries ++ rest) ≡ Some (record { waits = wait_of key; fiber = f }, in_order deque_items queues.new.entries ++ rest)) }
    ensures none { IfNone result (NobodyAt (wait_of key) (in_order deque_items queues.old.entries)) }
    ensures same { IfNone result (in_order deque_items queues.new.entries ≡ in_order deque_items queues.old.entries) }
{
    match queues.get_mut(&key) {
        Some(queue) => first_of(queue),
        None => None,
    }
}

// ---- apart

// The place of the first fiber that waits for this.
fn first_waiting<F>(waiters: &[Waiter<F>], waits: Waits) -> Option<usize>
    ensures index { result ≡ waiter_index waiters.now waits }
    ensures below { IfSome result (λ i. i < length waiters.now) }
{
    for (i, waiter) in waiters.iter().enumerate() {
        if is_same(waits, waiter.waits) {
            return Some(i);
        }
    }
    None
}

// A fiber stands behind the others; there is room.
fn stand_apart<F: Drop>(apart: &mut Vec<Waiter<F>>, waits: Waits, fiber: F)
    requires { length apart.old.items < vec_capacity apart.old }
    ensures items { apart.new.items ≡ apart.old.items ++ record { waits = waits; fiber = fiber } ∷ [] }
    ensures room { vec_capacity apart.old ≤ vec_capacity apart.new }
{
    match apart.push(Waiter { waits, fiber }) {
        Ok(()) => {}
        Err(_) => unreachable!(),
    }
}

// The first fiber that waits for this leaves the others.
fn first_apart<F: Drop>(apart: &mut Vec<Waiter<F>>, waits: Waits) -> Option<Waiter<F>>
    ensures some { IfSome result (λ w. woken waits apart.old.items ≡ Some (w, apart.new.items)) }
    ensures none { IfNone result (woken waits apart.old.items ≡ None) }
    ensures same { IfNone result (apart.new.items ≡ apart.old.items) }
    ensures room { vec_capacity apart.old ≤ vec_capacity apart.new }
{
    match first_waiting(apart.as_slice(), waits) {
        Some(i) => Some(apart.remove(i)),
        None => None,
    }
}

// Adds the fibers of a queue to a list.
fn add_all<F: Drop>(
    waiters: &mut Vec<Waiter<F>>,
    waits: Waits,
    queue: VecDeque<F>,
) -> Result<(), NoMemory>
    ensures { OnOk result (waiters.new.items ≡ waiters.old.items ++ at_wait waits queue.items) }
{
    for fiber in queue {
        let Ok(()) = waiters.push(Waiter { waits, fiber }) else {
            return Err(NoMemory);
        };
    }
    Ok(())
}

// The fibers of all queues.
fn list_all<F: Drop>(
    alloc: Global,
    queues: BTreeMap<(bool, u32, u32), VecDeque<F>>,
) -> Result<Vec<Waiter<F>>, NoMemory>
    ensures { IfOk result (λ ws. ws.items ≡ in_order deque_items queues.entries) }
{
    let mut waiters = Vec::new(alloc);
    for (key, queue) in queues {
        let Ok(()) = add_all(&mut waiters, wait_of(key), queue) else {
            return Err(NoMemory);
        };
    }
    Ok(waiters)
}

impl<F: Drop> Parked<F> {
    /// Nobody waits. Takes no memory.
    pub fn new(alloc: Global) -> Parked<F>
        ensures { result.items ≡ [] }
    {
        Parked {
            by_wait: BTreeMap::new(alloc),
            apart: Vec::new(alloc),
            alloc,
        }
    }

    /// Makes room for so many fibers.
    pub fn reserve(&mut self, fibers: usize) -> Result<(), NoMemory>
        ensures items { self.new.items ≡ self.old.items }
        ensures kept { self.old.room ≤ self.new.room }
        ensures room { OnOk result (fibers ≤ self.new.room) }
    {
        self.apart.reserve(fibers)?;
        Ok(())
    }

    /// Makes places for so many more fibers that wait for this, so that they are found there at once. Contracts don't see them.
    pub fn make_places(&mut self, waits: Waits, more: usize) -> Result<(), NoMemory>
        ensures items { self.new.items ≡ self.old.items }
        ensures room { self.new.room ≡ self.old.room }
    {
        make_places(&mut self.by_wait, self.alloc, key_of(waits), more)
    }

    /// A fiber waits, behind the others that wait for the same; there is room. Takes no memory.
    pub fn park(&mut self, waits: Waits, fiber: F)
        requires { length self.old.items < self.old.room }
        ensures items { StandsBehind (record { waits = waits; fiber = fiber }) self.old.items self.new.items }
        ensures room { self.old.room ≤ self.new.room }
    {
        if self.apart.is_empty() {
            match stand_behind(&mut self.by_wait, key_of(waits), fiber) {
                None => {}
                Some(fiber) => stand_apart(&mut self.apart, waits, fiber),
            }
        } else {
            stand_apart(&mut self.apart, waits, fiber);
        }
    }

    /// The first fiber that waits for this leaves the others. Takes no memory.
    pub fn wake(&mut self, waits: Waits) -> Option<Waiter<F>>
        ensures some { IfSome result (λ w. woken waits self.old.items ≡ Some (w, self.new.items)) }
        ensures none { IfNone result (woken waits self.old.items ≡ None) }
        ensures same { IfNone result (self.new.items ≡ self.old.items) }
        ensures room { self.old.room ≤ self.new.room }
    {
        match first_at(&mut self.by_wait, key_of(waits)) {
            Some(fiber) => Some(Waiter { waits, fiber }),
            None => first_apart(&mut self.apart, waits),
        }
    }

    /// The list of those that wait.
    pub fn into_list(self) -> Result<Vec<Waiter<F>>, NoMemory>
        ensures { IfOk result (λ ws. ws.items ≡ self.items) }
    {
        let Parked {
            by_wait,
            mut apart,
            alloc,
        } = self;
        let Ok(mut waiters) = list_all(alloc, by_wait) else {
            return Err(NoMemory);
        };
        let Ok(()) = waiters.append(&mut apart) else {
            return Err(NoMemory);
        };
        Ok(waiters)
    }
}
