//! Records on top of each other.

ghost use Rattle.std.specs.Prelude.{◌≡◌, ◌<◌, ◌^◌, ◌∷◌, [], length, MatchOption, OnOk, IfOk};
ghost use Rattle.kilim_fiber_steps.specs.records.Members.{comes_next, first_receiver_of};

use crate::records::record::Record;
use kilim_program::Value;
use std::alloc::{AllocError, Global};
use std::marker::Model;

/// Records on top of each other. Contracts see the topmost one first.
#[derive(Drop)]
pub struct Pile {
    records: Vec<Record>,
}

impl Model for Pile {
    ghost use Rattle.std.specs.Prelude.{List, reverse};
    ghost use Rattle.kilim_fiber_spec.specs.Fibers.{Rec};

    ghost Value = { List Rec };

    ghost view = { λ p. reverse p.records.items };
}

impl Pile {
    /// No record. Takes no memory.
    pub fn new(alloc: Global) -> Pile
        ensures { result ≡ [] }
    {
        Pile {
            records: Vec::new(alloc),
        }
    }

    /// How many they are.
    pub fn len(&self) -> usize
        ensures counts { result ≡ length self.now }
        ensures small { result < 2 ^ 63 }
    {
        self.records.len()
    }

    /// Puts a record on top. For want of memory it is dropped.
    pub fn push(&mut self, one: Record) -> Result<(), AllocError>
        ensures { OnOk result (self.new ≡ one ∷ self.old) }
    {
        match self.records.push(one) {
            Ok(()) => Ok(()),
            Err(_) => Err(AllocError),
        }
    }

    /// Takes the topmost record off, where there is one.
    pub fn pop(&mut self) -> Option<Record>
        ensures { MatchOption result ((self.old ≡ []) × (self.new ≡ [])) (λ one. self.old ≡ one ∷ self.new) }
    {
        self.records.pop()
    }

    /// Takes the topmost record off, where there is one, and else makes one with nothing written down.
    pub fn pop_or_new(&mut self, alloc: Global) -> Record
        ensures { comes_next self.old self.new result }
    {
        match self.pop() {
            Some(one) => one,
            None => Record::new(alloc),
        }
    }

    /// The receiver of the topmost record, where there is one.
    pub fn receiver(&self) -> Result<Option<Value>, AllocError>
        ensures { IfOk result (λ found. found ≡ first_receiver_of self.now) }
    {
        let count = self.records.len();
        if count == 0 {
            return Ok(None);
        }
        match self.records[count - 1].receiver() {
            Ok(receiver) => Ok(Some(receiver)),
            Err(fault) => Err(fault),
        }
    }
}
