//! What the locals of a graph name.

ghost use Rattle.std.specs.Prelude.{◌≡◌, ◌↔◌, ◌+◌, ◌≤◌, ◌++◌, None, IsTrue, IfOk, OnOk, length, replicate};
ghost use Rattle.kilim_isolation_graph.specs.Graphs as spec;

use crate::graph::slot_at;
use kilim_units::{NoMemory, Seq, no_room};
use std::alloc::Global;
use std::marker::Model;

/// What slots name. Those behind the front name nothing, and aren't kept one by one; contracts see all of them.
#[derive(Drop)]
pub struct Slots {
    front: Vec<Option<usize>>,
    more: usize,
}

impl Model for Slots {
    ghost use Rattle.std.specs.Prelude.{List, ℕ, Option, None, ◌++◌, replicate};

    ghost Value = { List (Option ℕ) };

    ghost view = { λ s. s.front.items ++ replicate s.more None };
}

// A slot of the front names something else; how many more slots there are then.
fn set_front(
    front: &mut Vec<Option<usize>>,
    more: usize,
    at: usize,
    name: Option<usize>,
) -> Result<usize, NoMemory>
    ensures { IfOk result (λ left. front.new.items ++ replicate left None ≡ spec.with_slot (front.old.items ++ replicate more None) at name) }
{
    let mut left = more;
    while front.len() <= at {
        let Ok(()) = front.push(None) else {
            return Err(NoMemory);
        };
        left = left.saturating_sub(1);
    }
    front[at] = name;
    Ok(left)
}

// Of so many slots that name nothing one is set to nothing: how many there are then.
#[tactic(auto, using(crate::proofs::Fronts::none_within, crate::proofs::Fronts::none_beyond))]
fn with_none(more: usize, at: usize) -> Result<usize, NoMemory>
    ensures { IfOk result (λ left. spec.with_slot (replicate more None) at None ≡ replicate left None) }
{
    if at < more {
        return Ok(more);
    }
    let Some(next) = at.checked_add(1) else {
        // room: 2^64 slots
        return Err(no_room());
    };
    Ok(next)
}

fn is_same(one: &[Option<usize>], other: &[Option<usize>]) -> bool
    ensures { IsTrue result ↔ (one.now ≡ other.now) }
{
    if one.len() != other.len() {
        return false;
    }
    for k in 0..one.len() {
        if one[k] != other[k] {
            return false;
        }
    }
    true
}

// Whether no slot names anything.
fn none_named(slots: &[Option<usize>]) -> bool
    ensures { IsTrue result ↔ (slots.now ≡ replicate (length slots.now) None) }
{
    for slot in slots {
        if slot.is_some() {
            return false;
        }
    }
    true
}

fn is_sum(one: usize, other: usize, sum: usize) -> bool
    ensures { IsTrue result ↔ (one + other ≡ sum) }
{
    other <= sum && sum - other == one
}

// Whether these slots and so many more that name nothing are those others.
fn same_parts(long: &[Option<usize>], more: usize, short: &[Option<usize>], others: usize) -> bool
    requires { length short.now ≤ length long.now }
    ensures { IsTrue result ↔ (long.now ++ replicate more None ≡ short.now ++ replicate others None) }
{
    let (front, rest) = long.split_at(short.len());
    if !is_sum(rest.len(), more, others) {
        return false;
    }
    if !none_named(rest) {
        return false;
    }
    is_same(front, short)
}

impl Slots {
    /// Whether these are the same slots.
    pub fn is_same(&self, other: &Slots) -> bool
        ensures { IsTrue result ↔ (self.now ≡ other.now) }
    {
        let (one, more) = self.parts();
        let (two, others) = other.parts();
        if two.len() <= one.len() {
            same_parts(one, more, two, others)
        } else {
            same_parts(two, others, one, more)
        }
    }

    /// These slots, and so many more that name nothing.
    pub fn new(front: Seq<Option<usize>>, more: usize) -> Slots
        ensures { result ≡ front ++ replicate more None }
    {
        Slots {
            front: front.into_vec(),
            more,
        }
    }

    /// The slots in front, and how many more there are, which name nothing.
    pub fn parts(&self) -> (&[Option<usize>], usize)
        ensures { self.now ≡ result.0.now ++ replicate result.1 None }
    {
        (self.front.as_slice(), self.more)
    }

    /// The same slots.
    pub fn copied(&self, alloc: Global) -> Result<Slots, NoMemory>
        ensures { IfOk result (λ slots. slots ≡ self.now) }
    {
        let Ok(front) = Vec::from_slice(alloc, self.front.as_slice()) else {
            return Err(NoMemory);
        };
        Ok(Slots {
            front,
            more: self.more,
        })
    }

    /// What a slot names; one past the end names none.
    #[tactic(auto, using(crate::proofs::Fronts::slot_front))]
    pub fn get(&self, at: usize) -> Option<usize>
        ensures { result ≡ spec.slot self.now at }
    {
        slot_at(self.front.as_slice(), at)
    }

    /// A slot names something else.
    #[tactic(auto, using(crate::proofs::Fronts::none_front))]
    pub fn set(&mut self, at: usize, name: Option<usize>) -> Result<(), NoMemory>
        ensures { OnOk result (self.new ≡ spec.with_slot self.old at name) }
    {
        let length = self.front.len();
        if name.is_some() || at < length {
            let Ok(left) = set_front(&mut self.front, self.more, at, name) else {
                return Err(NoMemory);
            };
            self.more = left;
            return Ok(());
        }
        let Ok(left) = with_none(self.more, at - length) else {
            return Err(NoMemory);
        };
        self.more = left;
        Ok(())
    }
}
