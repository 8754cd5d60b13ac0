//! Constants, local variables and the forms that move words of the stack (JVMS 2.11.2 and 2.11.7).

ghost use Rattle.std.specs.Prelude.{◌≡◌, ◌≤◌, ◌<◌, ◌∷◌, false, length, IfOk};
ghost use Rattle.kilim_run_machine.specs.Does.{does};
ghost use Rattle.kilim_run_machine.specs.Effect.{Goes, as_reference, on_constant};
ghost use Rattle.kilim_program.specs.declared.instr.Instr.TheVariants.{Iload, Lload, Aload, Istore, Lstore, Astore, Iinc};
ghost use Rattle.kilim_run_rows.specs.Outcome.{is_stuck, height, Shows, SameFrame};

use crate::outcome::Moved;
use kilim_program::{Method, Program, Value};
use kilim_run_state::Heap;
use kilim_run_state::frames::Frame;

/// A constant of the instruction goes on top of the stack.
#[inline(always)]
pub fn constant(value: Value, own: &Method, next: u32, frame: &mut Frame, heap: &Heap) -> Moved
    requires { length frame.old.stack.values < frame.old.stack.room }
    ensures step { Shows own.now (Goes next frame.old.locals (value ∷ frame.old.stack.values) heap.now) next result frame.old frame.new heap.now heap.now }
    ensures same { SameFrame frame.old frame.new }
{
    frame.stack.push(value);
    Moved::Next
}

/// A constant of the pool goes on top of the stack: `ldc`, `ldc_w` and `ldc2_w`.
#[inline(always)]
pub fn load_constant(
    value: &Value,
    own: &Method,
    next: u32,
    frame: &mut Frame,
    heap: &Heap,
) -> Moved
    requires fine { is_stuck (on_constant value.now (λ c. Goes next frame.old.locals (c ∷ frame.old.stack.values) heap.now)) ≡ false }
    requires room { height (on_constant value.now (λ c. Goes next frame.old.locals (c ∷ frame.old.stack.values) heap.now)) ≤ frame.old.stack.room }
    ensures step { Shows own.now (on_constant value.now (λ c. Goes next frame.old.locals (c ∷ frame.old.stack.values) heap.now)) next result frame.old frame.new heap.now heap.now }
    ensures same { SameFrame frame.old frame.new }
{
    match value.clone() {
        Ok(copy) => {
            frame.stack.push(copy);
            Moved::Next
        }
        Err(_) => Moved::NoMemory,
    }
}

/// `iload`.
#[tactic(auto, unfolding(kilim_run_machine::specs::Does::does))]
#[inline(always)]
pub fn load_int(
    slot: u16,
    program: &Program,
    own: &Method,
    next: u32,
    frame: &mut Frame,
    heap: &Heap,
) -> Moved
    requires fine { is_stuck (does program.now own.now (Iload slot) next frame.old.locals frame.old.stack.values heap.now) ≡ false }
    requires room { height (does program.now own.now (Iload slot) next frame.old.locals frame.old.stack.values heap.now) ≤ frame.old.stack.room }
    ensures step { Shows own.now (does program.now own.now (Iload slot) next frame.old.locals frame.old.stack.values heap.now) next result frame.old frame.new heap.now heap.now }
    ensures same { SameFrame frame.old frame.new }
{
    match frame.locals.get(usize::from(slot)) {
        Value::Int(x) => {
            let x = *x;
            frame.stack.push(Value::Int(x));
            Moved::Next
        }
        _ => unreachable!(),
    }
}

/// `lload`.
#[tactic(auto, unfolding(kilim_run_machine::specs::Does::does))]
#[inline(always)]
pub fn load_long(
    slot: u16,
    program: &Program,
    own: &Method,
    next: u32,
    frame: &mut Frame,
    heap: &Heap,
) -> Moved
    requires fine { is_stuck (does program.now own.now (Lload slot) next frame.old.locals frame.old.stack.values heap.now) ≡ false }
    requires room { height (does program.now own.now (Lload slot) next frame.old.locals frame.old.stack.values heap.now) ≤ frame.old.stack.room }
    ensures step { Shows own.now (does program.now own.now (Lload slot) next frame.old.locals frame.old.stack.values heap.now) next result frame.old frame.new heap.now heap.now }
    ensures same { SameFrame frame.old frame.new }
{
    match frame.locals.get(usize::from(slot)) {
        Value::Long(x) => {
            let x = *x;
            frame.stack.push(Value::Long(x));
            Moved::Next
        }
        _ => unreachable!(),
    }
}

/// `aload`.
#[tactic(auto, unfolding(kilim_run_machine::specs::Does::does))]
#[inline(always)]
pub fn load_reference(
    slot: u16,
    program: &Program,
    own: &Method,
    next: u32,
    frame: &mut Frame,
    heap: &Heap,
) -> Moved
    requires fine { is_stuck (does program.now own.now (Aload slot) next frame.old.locals frame.old.stack.values heap.now) ≡ false }
    requires room { height (does program.now own.now (Aload slot) next frame.old.locals frame.old.stack.values heap.now) ≤ frame.old.stack.room }
    ensures step { Shows own.now (does program.now own.now (Aload slot) next frame.old.locals frame.old.stack.values heap.now) next result frame.old frame.new heap.now heap.now }
    ensures same { SameFrame frame.old frame.new }
{
    match frame.stack.push_copy(frame.locals.get(usize::from(slot))) {
        Ok(()) => Moved::Next,
        Err(_) => Moved::NoMemory,
    }
}

/// `istore`.
#[tactic(auto, unfolding(kilim_run_machine::specs::Does::does))]
#[inline(always)]
pub fn store_int(
    slot: u16,
    program: &Program,
    own: &Method,
    next: u32,
    frame: &mut Frame,
    heap: &Heap,
) -> Moved
    requires fine { is_stuck (does program.now own.now (Istore slot) next frame.old.locals frame.old.stack.values heap.now) ≡ false }
    requires room { height (does program.now own.now (Istore slot) next frame.old.locals frame.old.stack.values heap.now) ≤ frame.old.stack.room }
    ensures step { Shows own.now (does program.now own.now (Istore slot) next frame.old.locals frame.old.stack.values heap.now) next result frame.old frame.new heap.now heap.now }
    ensures same { SameFrame frame.old frame.new }
{
    let x = frame.stack.pop_int();
    frame.locals.set(usize::from(slot), Value::Int(x));
    Moved::Next
}

/// `lstore`.
#[tactic(auto, unfolding(kilim_run_machine::specs::Does::does))]
#[inline(always)]
pub fn store_long(
    slot: u16,
    program: &Program,
    own: &Method,
    next: u32,
    frame: &mut Frame,
    heap: &Heap,
) -> Moved
    requires fine { is_stuck (does program.now own.now (Lstore slot) next frame.old.locals frame.old.stack.values heap.now) ≡ false }
    requires room { height (does program.now own.now (Lstore slot) next frame.old.locals frame.old.stack.values heap.now) ≤ frame.old.stack.room }
    ensures step { Shows own.now (does program.now own.now (Lstore slot) next frame.old.locals frame.old.stack.values heap.now) next result frame.old frame.new heap.now heap.now }
    ensures same { SameFrame frame.old frame.new }
{
    let x = frame.stack.pop_long();
    frame.locals.set(usize::from(slot), Value::Long(x));
    Moved::Next
}

/// `astore`.
#[tactic(auto, unfolding(kilim_run_machine::specs::Does::does))]
#[inline(always)]
pub fn store_reference(
    slot: u16,
    program: &Program,
    own: &Method,
    next: u32,
    frame: &mut Frame,
    heap: &Heap,
) -> Moved
    requires fine { is_stuck (does program.now own.now (Astore slot) next frame.old.locals frame.old.stack.values heap.now) ≡ false }
    requires room { height (does program.now own.now (Astore slot) next frame.old.locals frame.old.stack.values heap.now) ≤ frame.old.stack.room }
    ensures step { Shows own.now (does program.now own.now (Astore slot) next frame.old.locals frame.old.stack.values heap.now) next result frame.old frame.new heap.now heap.now }
    ensures same { SameFrame frame.old frame.new }
{
    let value = frame.stack.pop();
    frame.locals.set(usize::from(slot), value);
    Moved::Next
}

/// `iinc`.
#[tactic(auto, unfolding(kilim_run_machine::specs::Does::does))]
#[inline(always)]
pub fn increase(
    slot: u16,
    by: i16,
    program: &Program,
    own: &Method,
    next: u32,
    frame: &mut Frame,
    heap: &Heap,
) -> Moved
    requires fine { is_stuck (does program.now own.now (Iinc slot by) next frame.old.locals frame.old.stack.values heap.now) ≡ false }
    requires room { height (does program.now own.now (Iinc slot by) next frame.old.locals frame.old.stack.values heap.now) ≤ frame.old.stack.room }
    ensures step { Shows own.now (does program.now own.now (Iinc slot by) next frame.old.locals frame.old.stack.values heap.now) next result frame.old frame.new heap.now heap.now }
    ensures same { SameFrame frame.old frame.new }
{
    let slot = usize::from(slot);
    match frame.locals.get(slot) {
        Value::Int(x) => {
            let sum = x.wrapping_add(i32::from(by));
            frame.locals.set(slot, Value::Int(sum));
            Moved::Next
        }
        _ => unreachable!(),
    }
}
