//! What is written down of one frame.

ghost use Rattle.std.specs.Prelude.{◌≡◌, ◌<◌, ◌^◌, ◌∷◌, [], IfOk, OnOk};
ghost use Rattle.kilim_fiber_steps.specs.records.Members.{place_of, receiver_of, values_of, restored};
ghost use Rattle.kilim_fiber_spec.specs.Fibers.{Saved, empty_record};

use kilim_program::Value;
use std::alloc::{AllocError, Global};
use std::marker::Model;

/// What is written down of one frame: the number of its resume point, the receiver of the frame's call, and the values that
/// were saved. Contracts see the value that was saved last first.
#[derive(Drop)]
pub struct Record {
    place: u32,
    receiver: Value,
    values: Vec<Value>,
}

impl Model for Record {
    ghost use Rattle.std.specs.Prelude.{◌<◌, ◌^◌, reverse};
    ghost use Rattle.kilim_fiber_spec.specs.Fibers.{Rec, Saved};

    ghost Value = { Rec };

    ghost view = { λ r. Saved r.place r.receiver (reverse r.values.items) };

    ghost invariant = { λ r. r.place < 2 ^ 31 };
}

impl Record {
    /// One with nothing written down. Takes no memory.
    pub fn new(alloc: Global) -> Record
        ensures { result ≡ empty_record }
    {
        Record {
            place: 0,
            receiver: Value::Null,
            values: Vec::new(alloc),
        }
    }

    /// One with a receiver alone. Takes no memory.
    pub fn of_receiver(alloc: Global, receiver: Value) -> Record
        ensures { result ≡ Saved 0 receiver [] }
    {
        Record {
            place: 0,
            receiver,
            values: Vec::new(alloc),
        }
    }

    /// The number of the resume point.
    pub fn place(&self) -> u32
        ensures { (result ≡ place_of self.now) × (result < 2 ^ 31) }
    {
        self.place
    }

    /// The receiver.
    pub fn receiver(&self) -> Result<Value, AllocError>
        ensures { IfOk result (λ v. v ≡ receiver_of self.now) }
    {
        self.receiver.clone()
    }

    /// Writes the number of the resume point and the receiver down.
    pub fn set(&mut self, place: u32, receiver: Value)
        requires { place < 2 ^ 31 }
        ensures { self.new ≡ Saved place receiver (values_of self.old) }
    {
        self.place = place;
        self.receiver = receiver;
    }

    /// Saves a value.
    pub fn save(&mut self, value: Value) -> Result<(), AllocError>
        ensures { OnOk result (self.new ≡ Saved (place_of self.old) (receiver_of self.old) (value ∷ values_of self.old)) }
    {
        match self.values.push(value) {
            Ok(()) => Ok(()),
            Err(_) => Err(AllocError),
        }
    }

    /// Takes back the value that was saved last, where there is one.
    pub fn restore(&mut self) -> Option<Value>
        ensures { restored self.old self.new result }
    {
        self.values.pop()
    }
}
