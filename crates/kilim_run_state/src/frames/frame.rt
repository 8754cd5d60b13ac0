//! A frame: a method, a place in its code, the locals and the operand stack.

ghost use Rattle.std.specs.Prelude.{◌≡◌, ◌<◌, ◌++◌, ◌∷◌, [], length, replicate, slice_get, slice_set, Some, IfOk, OnOk};
ghost use Rattle.kilim_program.specs.declared.value.Value.TheVariants.{Null};
ghost use Rattle.kilim_run_state.specs.Machine.{slots_of};
ghost use Rattle.kilim_run_state.specs.frames.Stacked.{is_long, begun_with};

use crate::frames::stack::Stack;
use kilim_program::{MethodId, Value};
use kilim_units::Seq;
use std::alloc::{AllocError, Global};
use std::marker::Model;

/// The local variables of a frame, by slot (JVMS 2.6.1). Contracts see the list of their values.
#[derive(Drop)]
pub struct Locals {
    items: Vec<Value>,
}

impl Model for Locals {
    ghost use Rattle.std.specs.Prelude.{List};
    ghost use Rattle.kilim_program.specs.declared.value.Value as a_value;

    ghost Value = { List a_value.Value };

    ghost view = { λ s. s.items.items };
}

impl Locals {
    /// The value of a slot.
    #[inline(always)]
    pub fn get(&self, slot: usize) -> &Value
        requires { slot < length self.now }
        ensures { slice_get self.now slot ≡ Some result.now }
    {
        &self.items[slot]
    }

    /// Values as the locals with which a method begins: a long takes two slots, and there are at least so many slots.
    pub fn of_arguments(
        alloc: Global,
        arguments: Vec<Value>,
        slots: usize,
    ) -> Result<Locals, AllocError>
        ensures { IfOk result (λ locals. locals ≡ begun_with arguments.items slots) }
    {
        let Ok(mut items) = laid(alloc, arguments, slots) else {
            return Err(AllocError);
        };
        let missing = slots.saturating_sub(items.len());
        let Ok(()) = push_nulls(&mut items, missing) else {
            return Err(AllocError);
        };
        Ok(Locals {
            items: items.into_vec(),
        })
    }

    /// Values become the locals with which a method begins, in place of those that are there.
    pub fn begin(&mut self, arguments: &[Value], slots: usize) -> Result<(), AllocError>
        ensures { OnOk result (self.new ≡ begun_with arguments.now slots) }
    {
        self.items.truncate(0);
        let Ok(()) = self.items.reserve(slots) else {
            return Err(AllocError);
        };
        let Ok(()) = lay(&mut self.items, arguments) else {
            return Err(AllocError);
        };
        let missing = slots.saturating_sub(self.items.len());
        fill(&mut self.items, missing)
    }

    /// No locals. Takes no memory.
    #[inline(always)]
    pub fn none(alloc: Global) -> Locals
        ensures { result ≡ [] }
    {
        Locals {
            items: Vec::new(alloc),
        }
    }

    /// Puts a value into a slot. Takes no memory.
    #[inline(always)]
    pub fn set(&mut self, slot: usize, value: Value)
        requires { slot < length self.old }
        ensures { self.new ≡ slice_set self.old slot value }
    {
        self.items[slot] = value;
    }
}

/// A frame of the machine (JVMS 2.6).
#[derive(Drop)]
pub struct Frame {
    pub method: MethodId,
    /// The place of the next instruction; in a frame below another one, that of its call.
    pub pc: u32,
    pub locals: Locals,
    pub stack: Stack,
}

/// A frame of that method without locals and operands, which stands for one that was taken out. Takes no memory.
#[inline(always)]
pub fn no_frame(alloc: Global, method: MethodId) -> Frame
    ensures { result.method ≡ method }
{
    Frame {
        method,
        pc: 0,
        locals: Locals::none(alloc),
        stack: Stack::none(alloc),
    }
}

// Copies of values, in their slots, behind those that are there.
#[tactic(auto, using(crate::proofs::frames::Slots::slots_append))]
fn lay(items: &mut Vec<Value>, arguments: &[Value]) -> Result<(), AllocError>
    ensures { OnOk result (items.new.items ≡ items.old.items ++ slots_of arguments.now) }
{
    for value in arguments {
        let Ok(()) = lay_one(items, value) else {
            return Err(AllocError);
        };
    }
    Ok(())
}

// A copy of a value. A long takes two slots.
#[inline(always)]
fn lay_one(items: &mut Vec<Value>, value: &Value) -> Result<(), AllocError>
    ensures { OnOk result (items.new.items ≡ items.old.items ++ slots_of (value.now ∷ [])) }
{
    match value {
        Value::Ref(name) => put(items, Value::Ref(*name)),
        Value::Int(x) => put(items, Value::Int(*x)),
        Value::Long(x) => {
            let Ok(()) = put(items, Value::Long(*x)) else {
                return Err(AllocError);
            };
            put(items, Value::Null)
        }
        other => match other.clone() {
            Ok(copy) => put(items, copy),
            Err(fault) => Err(fault),
        },
    }
}

#[inline(always)]
fn put(items: &mut Vec<Value>, value: Value) -> Result<(), AllocError>
    ensures { OnOk result (items.new.items ≡ items.old.items ++ value ∷ []) }
{
    match items.push(value) {
        Ok(()) => Ok(()),
        Err(_) => Err(AllocError),
    }
}

fn fill(items: &mut Vec<Value>, count: usize) -> Result<(), AllocError>
    ensures { OnOk result (items.new.items ≡ items.old.items ++ replicate count Null) }
{
    for _ in 0..count {
        let Ok(()) = put(items, Value::Null) else {
            return Err(AllocError);
        };
    }
    Ok(())
}

// Values in their slots, with room for so many.
#[tactic(auto, using(crate::proofs::frames::Slots::slots_append))]
fn laid(alloc: Global, arguments: Vec<Value>, slots: usize) -> Result<Seq<Value>, AllocError>
    ensures { IfOk result (λ items. items ≡ slots_of arguments.items) }
{
    let mut room = Vec::new(alloc);
    let Ok(()) = room.reserve(slots) else {
        return Err(AllocError);
    };
    let mut items = Seq::from_vec(room);
    for value in arguments {
        let Ok(()) = push_slots(&mut items, value) else {
            return Err(AllocError);
        };
    }
    Ok(items)
}

fn push_nulls(items: &mut Seq<Value>, count: usize) -> Result<(), AllocError>
    ensures { OnOk result (items.new ≡ items.old ++ replicate count Null) }
{
    for _ in 0..count {
        let Ok(()) = items.push(Value::Null) else {
            return Err(AllocError);
        };
    }
    Ok(())
}

// A long takes two slots.
#[tactic(auto, using(crate::proofs::frames::Slots::slots_of_long, crate::proofs::frames::Slots::slots_of_other))]
fn push_slots(items: &mut Seq<Value>, value: Value) -> Result<(), AllocError>
    ensures { OnOk result (items.new ≡ items.old ++ slots_of (value ∷ [])) }
{
    let wide = is_long(&value);
    let Ok(()) = items.push(value) else {
        return Err(AllocError);
    };
    if wide {
        return items.push(Value::Null);
    }
    Ok(())
}

fn is_long(value: &Value) -> bool
    ensures { result ≡ is_long value.now }
{
    match value {
        Value::Long(_) => true,
        _ => false,
    }
}
