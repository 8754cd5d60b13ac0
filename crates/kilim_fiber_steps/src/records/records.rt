//! The records of all levels.

ghost use Rattle.std.specs.Prelude.{◌≡◌, ◌<◌, ◌≤◌, ◌^◌, ◌+◌, ◌∷◌, [], pos, Some, None, length, IfOk, OnOk, MatchOption};
ghost use Rattle.kilim_program.specs.declared.value.Value.TheVariants as a_value;
ghost use Rattle.kilim_run_machine.specs.Natives as native;
ghost use Rattle.kilim_fiber_spec.specs.Fibers.{new_fiber, one_if, pausing, rewound, resumed, first_receiver, is_rewinding, is_pausing};
ghost use Rattle.kilim_fiber_steps.specs.records.Members.{did, Does, NotDone, deeper_of};

use crate::records::pile::Pile;
use crate::records::record::Record;
use kilim_program::Value;
use kilim_units::NoMemory;
use std::alloc::Global;
use std::marker::Model;
use std::mem::replace;

/// What a fiber keeps of its frames. After want of memory it may only be dropped.
#[derive(Drop)]
pub struct Records {
    // of the levels below its own, the nearest on top
    lower: Pile,
    here: Record,
    // of the levels above its own, the nearest on top
    deeper: Pile,
    rewinding: bool,
    pausing: bool,
}

impl Model for Records {
    ghost use Rattle.kilim_fiber_spec.specs.Fibers.{Fib, Fiber_at};

    ghost Value = { Fib };

    ghost view = { λ r. Fiber_at r.lower r.here r.deeper r.rewinding r.pausing };
}

impl Records {
    /// Those of a fiber that has no frame. Takes no memory.
    pub fn new(alloc: Global) -> Records
        ensures { result ≡ new_fiber }
    {
        Records {
            lower: Pile::new(alloc),
            here: Record::new(alloc),
            deeper: Pile::new(alloc),
            rewinding: false,
            pausing: false,
        }
    }

    /// `pc`: the number of the resume point at this level while the fiber rewinds, and else 0.
    pub fn pc(&self) -> u32
        ensures gives { did native.Pc (a_value.Fiber ∷ []) self.now ≡ Does self.now (Some (a_value.Int (pos result))) }
        ensures small { result < 2 ^ 31 }
    {
        if self.rewinding { self.here.place() } else { 0 }
    }

    /// `down`: a call begins, one level deeper.
    pub fn down(&mut self, alloc: Global) -> Result<(), NoMemory>
        ensures { OnOk result (did native.Down (a_value.Fiber ∷ []) self.old ≡ Does self.new (Some a_value.Fiber)) }
    {
        let next = self.deeper.pop_or_new(alloc);
        let here = replace(&mut self.here, next);
        match self.lower.push(here) {
            Ok(()) => Ok(()),
            Err(_) => Err(NoMemory),
        }
    }

    /// `up`: a call returned, one level back, and whether the fiber pauses. Then the record of the level that is left stays, and else
    /// it is dropped. None where there is no lower level.
    pub fn up(&mut self) -> Result<Option<bool>, NoMemory>
        ensures { IfOk result (λ found. MatchOption found (did native.Up (a_value.Fiber ∷ []) self.old ≡ NotDone) (λ pauses. did native.Up (a_value.Fiber ∷ []) self.old ≡ Does self.new (Some (one_if pauses)))) }
    {
        let Some(lower) = self.lower.pop() else {
            return Ok(None);
        };
        let left = replace(&mut self.here, lower);
        if self.pausing {
            let Ok(()) = self.deeper.push(left) else {
                return Err(NoMemory);
            };
        }
        Ok(Some(self.pausing))
    }

    /// `save`: a value is written down at this level.
    pub fn save(&mut self, value: Value) -> Result<(), NoMemory>
        ensures { OnOk result (did native.Save (value ∷ a_value.Fiber ∷ []) self.old ≡ Does self.new None) }
    {
        match self.here.save(value) {
            Ok(()) => Ok(()),
            Err(_) => Err(NoMemory),
        }
    }

    /// `place`: the number of the resume point and the frame's receiver are written down at this level.
    pub fn place(&mut self, number: u32, receiver: Value)
        requires { number < 2 ^ 31 }
        ensures { did native.Place (a_value.Int (pos number) ∷ receiver ∷ a_value.Fiber ∷ []) self.old ≡ Does self.new None }
    {
        self.here.set(number, receiver);
    }

    /// `restore`: the value that was saved last at this level is taken back. None where there is none.
    pub fn restore(&mut self) -> Option<Value>
        ensures { MatchOption result (did native.Restore (a_value.Fiber ∷ []) self.old ≡ NotDone) (λ value. did native.Restore (a_value.Fiber ∷ []) self.old ≡ Does self.new (Some value)) }
    {
        self.here.restore()
    }

    /// `receiver`: the receiver of the call one level deeper. None where nothing is written down there.
    pub fn receiver(&self) -> Result<Option<Value>, NoMemory>
        ensures { IfOk result (λ found. MatchOption found (did native.Receiver (a_value.Fiber ∷ []) self.now ≡ NotDone) (λ value. did native.Receiver (a_value.Fiber ∷ []) self.now ≡ Does self.now (Some value))) }
    {
        match self.deeper.receiver() {
            Ok(found) => Ok(found),
            Err(_) => Err(NoMemory),
        }
    }

    /// A leaf pauses: it writes its receiver down, and all frames are to be left.
    pub fn pause(&mut self, alloc: Global, receiver: Value)
        ensures { self.new ≡ pausing receiver self.old }
    {
        self.here = Record::of_receiver(alloc, receiver);
        self.rewinding = false;
        self.pausing = true;
    }

    /// All frames stand again: the leaf's record is dropped, and the rewinding is over.
    pub fn end_rewinding(&mut self, alloc: Global)
        ensures { self.new ≡ rewound self.old }
    {
        self.here = Record::new(alloc);
        self.rewinding = false;
    }

    /// The fiber goes on: it rewinds from here.
    pub fn resume(&mut self)
        ensures { self.new ≡ resumed self.old }
    {
        self.rewinding = true;
        self.pausing = false;
    }

    pub fn is_rewinding(&self) -> bool
        ensures { result ≡ is_rewinding self.now }
    {
        self.rewinding
    }

    pub fn is_pausing(&self) -> bool
        ensures { result ≡ is_pausing self.now }
    {
        self.pausing
    }

    /// The receiver of the first frame.
    pub fn first_receiver(&self) -> Result<Value, NoMemory>
        ensures { IfOk result (λ value. value ≡ first_receiver self.now) }
    {
        match self.here.receiver() {
            Ok(receiver) => Ok(receiver),
            Err(_) => Err(NoMemory),
        }
    }

    /// How many records are kept above this level.
    pub fn deeper(&self) -> usize
        ensures counts { result ≡ length (deeper_of self.now) }
        ensures small { result < 2 ^ 63 }
    {
        self.deeper.len()
    }
}
