//! An operand stack (JVMS 2.6.2), with room made once.

ghost use Rattle.std.specs.Prelude.{◌≡◌, ◌<◌, ◌≤◌, ◌++◌, ◌∷◌, [], ℕ, true, length, reverse, take, drop, IfOk, OnErr, OnOk, slice_get, Some, vec_capacity};
ghost use Rattle.kilim_run_state.specs.frames.Stacked.{Stacked, top_is, is_int, is_long, is_object, object_value};
ghost use Rattle.kilim_program.specs.declared.value.Value.TheVariants as a_value;

use kilim_program::Value;
use kilim_units::Seq;
use std::alloc::{AllocError, Global};
use std::marker::Model;

/// An operand stack. Contracts see its values, the top first, and for how many values it has room.
#[derive(Drop)]
pub struct Stack {
    values: Vec<Value>,
    room: usize,
}

impl Model for Stack {
    ghost use Rattle.std.specs.Prelude.{◌≤◌, reverse, vec_capacity};
    ghost use Rattle.kilim_run_state.specs.frames.Stacked.{Stacked};

    ghost Value = { Stacked };

    ghost view = { λ s. record { values = reverse s.values.items; room = s.room } };

    ghost invariant = { λ s. s.room ≤ vec_capacity s.values };
}

impl Stack {
    /// An empty stack with room for so many values.
    pub fn with_room(alloc: Global, room: usize) -> Result<Stack, AllocError>
        ensures { IfOk result (λ s. s ≡ record { values = []; room = room }) }
    {
        let mut values = Vec::new(alloc);
        let Ok(()) = values.reserve(room) else {
            return Err(AllocError);
        };
        Ok(Stack { values, room })
    }

    /// An empty stack without room. Takes no memory.
    #[inline(always)]
    pub fn none(alloc: Global) -> Stack
        ensures { result ≡ record { values = []; room = 0 } }
    {
        Stack {
            values: Vec::new(alloc),
            room: 0,
        }
    }

    /// Puts a value on top. Takes no memory.
    #[inline(always)]
    pub fn push(&mut self, value: Value)
        requires { length self.old.values < self.old.room }
        ensures { self.new ≡ record self.old { values = value ∷ self.old.values } }
    {
        self.values.push_reserved(value);
    }

    /// The topmost value.
    #[inline(always)]
    pub fn pop(&mut self) -> Value
        requires { 0 < length self.old.values }
        ensures { self.old ≡ record self.new { values = result ∷ self.new.values } }
    {
        self.values.take_last()
    }

    /// The topmost value, an int.
    #[inline(always)]
    pub fn pop_int(&mut self) -> i32
        requires { top_is is_int self.old.values ≡ true }
        ensures { self.old ≡ record self.new { values = a_value.Int result ∷ self.new.values } }
    {
        match self.pop() {
            Value::Int(x) => x,
            _ => unreachable!(),
        }
    }

    /// The topmost value, a long.
    #[inline(always)]
    pub fn pop_long(&mut self) -> i64
        requires { top_is is_long self.old.values ≡ true }
        ensures { self.old ≡ record self.new { values = a_value.Long result ∷ self.new.values } }
    {
        match self.pop() {
            Value::Long(x) => x,
            _ => unreachable!(),
        }
    }

    /// The topmost value, an object's name or null.
    #[inline(always)]
    pub fn pop_object(&mut self) -> Option<u32>
        requires { top_is is_object self.old.values ≡ true }
        ensures { self.old ≡ record self.new { values = object_value result ∷ self.new.values } }
    {
        match self.pop() {
            Value::Ref(name) => Some(name),
            Value::Null => None,
            _ => unreachable!(),
        }
    }

    /// A value below so many others.
    #[inline(always)]
    pub fn peek(&self, depth: usize) -> &Value
        requires { depth < length self.now.values }
        ensures { slice_get self.now.values depth ≡ Some result.now }
    {
        &self.values[self.values.len() - 1 - depth]
    }

    /// Puts a copy of a value on top. For want of memory, which a text may have alone, the stack stays as it was.
    #[inline(always)]
    pub fn push_copy(&mut self, value: &Value) -> Result<(), AllocError>
        requires { length self.old.values < self.old.room }
        ensures ok { OnOk result (self.new ≡ record self.old { values = value.now ∷ self.old.values }) }
        ensures err { OnErr result (self.new ≡ self.old) }
    {
        match value {
            Value::Ref(name) => {
                self.push(Value::Ref(*name));
                Ok(())
            }
            Value::Int(x) => {
                self.push(Value::Int(*x));
                Ok(())
            }
            Value::Fiber => {
                self.push(Value::Fiber);
                Ok(())
            }
            other => match other.clone() {
                Ok(copy) => {
                    self.push(copy);
                    Ok(())
                }
                Err(fault) => Err(fault),
            },
        }
    }

    /// So many of the topmost values, the lowest first.
    #[inline(always)]
    pub fn topmost(&self, count: usize) -> &[Value]
        requires { count ≤ length self.now.values }
        ensures { result.now ≡ reverse (take count self.now.values) }
    {
        let start = self.values.len() - count;
        &self.values[start..]
    }

    /// Empties the stack, with room for so many values.
    pub fn begin(&mut self, room: usize) -> Result<(), AllocError>
        ensures { OnOk result (self.new ≡ record { values = []; room = room }) }
    {
        self.values.truncate(0);
        let Ok(()) = self.values.reserve(room) else {
            return Err(AllocError);
        };
        self.room = room;
        Ok(())
    }

    /// A copy of so many of the topmost values, the lowest first.
    pub fn last(&self, alloc: Global, count: usize) -> Result<Vec<Value>, AllocError>
        requires { count ≤ length self.now.values }
        ensures { IfOk result (λ values. values.items ≡ reverse (take count self.now.values)) }
    {
        let start = self.values.len() - count;
        copies(alloc, &self.values[start..])
    }

    /// Drops so many of the topmost values.
    pub fn drop_top(&mut self, count: usize)
        requires { count ≤ length self.old.values }
        ensures { self.new ≡ record self.old { values = drop count self.old.values } }
    {
        cut(&mut self.values, count);
    }

    /// The number of values.
    #[inline(always)]
    pub fn len(&self) -> usize
        ensures { result ≡ length self.now.values }
    {
        self.values.len()
    }

    /// For how many values there is room.
    pub fn room(&self) -> usize
        ensures { result ≡ self.now.room }
    {
        self.room
    }
}

// A copy of a value behind those that are there.
fn append_copy(into: &mut Seq<Value>, value: &Value) -> Result<(), AllocError>
    ensures { OnOk result (into.new ≡ into.old ++ value.now ∷ []) }
{
    match value.clone() {
        Ok(copy) => into.push(copy),
        Err(fault) => Err(fault),
    }
}

fn copies(alloc: Global, values: &[Value]) -> Result<Vec<Value>, AllocError>
    ensures { IfOk result (λ copies. copies.items ≡ values.now) }
{
    let mut room = Vec::new(alloc);
    let Ok(()) = room.reserve(values.len()) else {
        return Err(AllocError);
    };
    let mut copies = Seq::from_vec(room);
    for value in values {
        let Ok(()) = append_copy(&mut copies, value) else {
            return Err(AllocError);
        };
    }
    Ok(copies.into_vec())
}

// Drops so many from the end.
fn cut(values: &mut Vec<Value>, count: usize)
    requires { count ≤ length values.old.items }
    ensures items { reverse values.new.items ≡ drop count (reverse values.old.items) }
    ensures capacity { vec_capacity values.new ≡ vec_capacity values.old }
{
    let start = values.len() - count;
    values.truncate(start);
}
