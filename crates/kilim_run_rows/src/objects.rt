//! Fields and arrays (JVMS 2.11.5).

ghost use Rattle.std.specs.Prelude.{◌≡◌, ◌≤◌, false, pos, None, IsSome, MatchOption};
ghost use Rattle.kilim_run_machine.specs.Does.{does, loads_int, stores_int, narrowed_int, narrowed_to};
ghost use Rattle.kilim_program.specs.declared.instr.Instr.TheVariants.{Getfield, Putfield, Getstatic, Arraylength, Laload, Aaload, Iastore, Lastore};
ghost use Rattle.kilim_run_state.specs.Words.{IsThere, element_at};
ghost use Rattle.kilim_run_rows.specs.Outcome.{is_stuck, height, Shows, SameFrame, found_in};

use crate::numbers::{low_byte, low_char, low_short};
use crate::outcome::Moved;
use kilim_program::{Base, FieldId, Method, Program, Ty, Value};
use kilim_run_state::frames::Frame;
use kilim_run_state::{EndCause, Heap};

/// `getfield`.
#[tactic(auto, unfolding(kilim_run_machine::specs::Does::does))]
#[inline(always)]
pub fn read_field(
    field: FieldId,
    program: &Program,
    own: &Method,
    next: u32,
    frame: &mut Frame,
    heap: &Heap,
) -> Moved
    requires fine { is_stuck (does program.now own.now (Getfield field) next frame.old.locals frame.old.stack.values heap.now) ≡ false }
    requires room { height (does program.now own.now (Getfield field) next frame.old.locals frame.old.stack.values heap.now) ≤ frame.old.stack.room }
    ensures step { Shows own.now (does program.now own.now (Getfield field) next frame.old.locals frame.old.stack.values heap.now) next result frame.old frame.new heap.now heap.now }
    ensures same { SameFrame frame.old frame.new }
{
    let Some(at) = frame.stack.pop_object() else {
        return Moved::Raised(EndCause::Null);
    };
    match frame.stack.push_copy(heap.field(at, field)) {
        Ok(()) => Moved::Next,
        Err(_) => Moved::NoMemory,
    }
}

/// `putfield`. An int is narrowed to the field's type.
#[tactic(auto, unfolding(kilim_run_machine::specs::Does::does))]
#[inline(always)]
pub fn write_field(
    field: FieldId,
    program: &Program,
    own: &Method,
    next: u32,
    frame: &mut Frame,
    heap: &mut Heap,
) -> Moved
    requires fine { is_stuck (does program.now own.now (Putfield field) next frame.old.locals frame.old.stack.values heap.old) ≡ false }
    requires room { height (does program.now own.now (Putfield field) next frame.old.locals frame.old.stack.values heap.old) ≤ frame.old.stack.room }
    ensures step { Shows own.now (does program.now own.now (Putfield field) next frame.old.locals frame.old.stack.values heap.old) next result frame.old frame.new heap.old heap.new }
    ensures same { SameFrame frame.old frame.new }
{
    let value = frame.stack.pop();
    let Some(at) = frame.stack.pop_object() else {
        return Moved::Raised(EndCause::Null);
    };
    let declared = program.fields.get(field.0 as usize);
    heap.set_field(at, field, narrowed(&declared.ty, value));
    Moved::Next
}

/// `getstatic`: the constant of the field.
#[tactic(auto, unfolding(kilim_run_machine::specs::Does::does))]
#[inline(always)]
pub fn read_constant(
    field: FieldId,
    program: &Program,
    own: &Method,
    next: u32,
    frame: &mut Frame,
    heap: &Heap,
) -> Moved
    requires fine { is_stuck (does program.now own.now (Getstatic field) next frame.old.locals frame.old.stack.values heap.now) ≡ false }
    requires room { height (does program.now own.now (Getstatic field) next frame.old.locals frame.old.stack.values heap.now) ≤ frame.old.stack.room }
    ensures step { Shows own.now (does program.now own.now (Getstatic field) next frame.old.locals frame.old.stack.values heap.now) next result frame.old frame.new heap.now heap.now }
    ensures same { SameFrame frame.old frame.new }
{
    let declared = program.fields.get(field.0 as usize);
    let Some(constant) = &declared.constant else {
        unreachable!()
    };
    match constant.clone() {
        Ok(value) => {
            frame.stack.push(value);
            Moved::Next
        }
        Err(_) => Moved::NoMemory,
    }
}

/// `arraylength`.
#[tactic(auto, unfolding(kilim_run_machine::specs::Does::does))]
#[inline(always)]
pub fn array_length(
    program: &Program,
    own: &Method,
    next: u32,
    frame: &mut Frame,
    heap: &Heap,
) -> Moved
    requires fine { is_stuck (does program.now own.now Arraylength next frame.old.locals frame.old.stack.values heap.now) ≡ false }
    requires room { height (does program.now own.now Arraylength next frame.old.locals frame.old.stack.values heap.now) ≤ frame.old.stack.room }
    ensures step { Shows own.now (does program.now own.now Arraylength next frame.old.locals frame.old.stack.values heap.now) next result frame.old frame.new heap.now heap.now }
    ensures same { SameFrame frame.old frame.new }
{
    let Some(at) = frame.stack.pop_object() else {
        return Moved::Raised(EndCause::Null);
    };
    let length = heap.length(at);
    let low = (length % 4_294_967_296) as u32;
    frame.stack.push(Value::Int(low.cast_signed()));
    Moved::Next
}

/// `iaload`, `baload`, `caload` and `saload`.
#[inline(always)]
pub fn read_int(own: &Method, next: u32, frame: &mut Frame, heap: &Heap) -> Moved
    requires fine { is_stuck (loads_int next frame.old.locals frame.old.stack.values heap.now) ≡ false }
    requires room { height (loads_int next frame.old.locals frame.old.stack.values heap.now) ≤ frame.old.stack.room }
    ensures step { Shows own.now (loads_int next frame.old.locals frame.old.stack.values heap.now) next result frame.old frame.new heap.now heap.now }
    ensures same { SameFrame frame.old frame.new }
{
    let i = frame.stack.pop_int();
    let Some(at) = frame.stack.pop_object() else {
        return Moved::Raised(EndCause::Null);
    };
    let Some(index) = index_in(heap, at, i) else {
        return Moved::Raised(EndCause::Index);
    };
    match heap.element(at, index) {
        Value::Int(x) => {
            let x = *x;
            frame.stack.push(Value::Int(x));
            Moved::Next
        }
        _ => unreachable!(),
    }
}

/// `laload`.
#[tactic(auto, unfolding(kilim_run_machine::specs::Does::does))]
#[inline(always)]
pub fn read_long(
    program: &Program,
    own: &Method,
    next: u32,
    frame: &mut Frame,
    heap: &Heap,
) -> Moved
    requires fine { is_stuck (does program.now own.now Laload next frame.old.locals frame.old.stack.values heap.now) ≡ false }
    requires room { height (does program.now own.now Laload next frame.old.locals frame.old.stack.values heap.now) ≤ frame.old.stack.room }
    ensures step { Shows own.now (does program.now own.now Laload next frame.old.locals frame.old.stack.values heap.now) next result frame.old frame.new heap.now heap.now }
    ensures same { SameFrame frame.old frame.new }
{
    let i = frame.stack.pop_int();
    let Some(at) = frame.stack.pop_object() else {
        return Moved::Raised(EndCause::Null);
    };
    let Some(index) = index_in(heap, at, i) else {
        return Moved::Raised(EndCause::Index);
    };
    match heap.element(at, index) {
        Value::Long(x) => {
            let x = *x;
            frame.stack.push(Value::Long(x));
            Moved::Next
        }
        _ => unreachable!(),
    }
}

/// `aaload`.
#[tactic(auto, unfolding(kilim_run_machine::specs::Does::does))]
#[inline(always)]
pub fn read_reference(
    program: &Program,
    own: &Method,
    next: u32,
    frame: &mut Frame,
    heap: &Heap,
) -> Moved
    requires fine { is_stuck (does program.now own.now Aaload next frame.old.locals frame.old.stack.values heap.now) ≡ false }
    requires room { height (does program.now own.now Aaload next frame.old.locals frame.old.stack.values heap.now) ≤ frame.old.stack.room }
    ensures step { Shows own.now (does program.now own.now Aaload next frame.old.locals frame.old.stack.values heap.now) next result frame.old frame.new heap.now heap.now }
    ensures same { SameFrame frame.old frame.new }
{
    let i = frame.stack.pop_int();
    let Some(at) = frame.stack.pop_object() else {
        return Moved::Raised(EndCause::Null);
    };
    let Some(index) = index_in(heap, at, i) else {
        return Moved::Raised(EndCause::Index);
    };
    match frame.stack.push_copy(heap.element(at, index)) {
        Ok(()) => Moved::Next,
        Err(_) => Moved::NoMemory,
    }
}

/// `iastore`.
#[tactic(auto, unfolding(kilim_run_machine::specs::Does::does))]
#[inline(always)]
pub fn write_int(
    program: &Program,
    own: &Method,
    next: u32,
    frame: &mut Frame,
    heap: &mut Heap,
) -> Moved
    requires fine { is_stuck (does program.now own.now Iastore next frame.old.locals frame.old.stack.values heap.old) ≡ false }
    requires room { height (does program.now own.now Iastore next frame.old.locals frame.old.stack.values heap.old) ≤ frame.old.stack.room }
    ensures step { Shows own.now (does program.now own.now Iastore next frame.old.locals frame.old.stack.values heap.old) next result frame.old frame.new heap.old heap.new }
    ensures same { SameFrame frame.old frame.new }
{
    let x = frame.stack.pop_int();
    let i = frame.stack.pop_int();
    let Some(at) = frame.stack.pop_object() else {
        return Moved::Raised(EndCause::Null);
    };
    let Some(index) = index_in(heap, at, i) else {
        return Moved::Raised(EndCause::Index);
    };
    heap.set_element(at, index, Value::Int(x));
    Moved::Next
}

/// `bastore`, `castore` and `sastore`. The int is narrowed to the element's type.
#[inline(always)]
pub fn write_narrowed(own: &Method, next: u32, frame: &mut Frame, heap: &mut Heap) -> Moved
    requires fine { is_stuck (stores_int next frame.old.locals frame.old.stack.values heap.old) ≡ false }
    requires room { height (stores_int next frame.old.locals frame.old.stack.values heap.old) ≤ frame.old.stack.room }
    ensures step { Shows own.now (stores_int next frame.old.locals frame.old.stack.values heap.old) next result frame.old frame.new heap.old heap.new }
    ensures same { SameFrame frame.old frame.new }
{
    let x = frame.stack.pop_int();
    let i = frame.stack.pop_int();
    let Some(at) = frame.stack.pop_object() else {
        return Moved::Raised(EndCause::Null);
    };
    let Some(index) = index_in(heap, at, i) else {
        return Moved::Raised(EndCause::Index);
    };
    let x = narrowed_int(heap.class(at).base, x);
    heap.set_element(at, index, Value::Int(x));
    Moved::Next
}

/// `lastore`.
#[tactic(auto, unfolding(kilim_run_machine::specs::Does::does))]
#[inline(always)]
pub fn write_long(
    program: &Program,
    own: &Method,
    next: u32,
    frame: &mut Frame,
    heap: &mut Heap,
) -> Moved
    requires fine { is_stuck (does program.now own.now Lastore next frame.old.locals frame.old.stack.values heap.old) ≡ false }
    requires room { height (does program.now own.now Lastore next frame.old.locals frame.old.stack.values heap.old) ≤ frame.old.stack.room }
    ensures step { Shows own.now (does program.now own.now Lastore next frame.old.locals frame.old.stack.values heap.old) next result frame.old frame.new heap.old heap.new }
    ensures same { SameFrame frame.old frame.new }
{
    let x = frame.stack.pop_long();
    let i = frame.stack.pop_int();
    let Some(at) = frame.stack.pop_object() else {
        return Moved::Raised(EndCause::Null);
    };
    let Some(index) = index_in(heap, at, i) else {
        return Moved::Raised(EndCause::Index);
    };
    heap.set_element(at, index, Value::Long(x));
    Moved::Next
}

/// An int narrowed to a type: boolean to its low bit, byte, char and short to their bits.
#[inline(always)]
pub fn narrowed_int(base: Base, x: i32) -> i32
    ensures { result ≡ narrowed_int base x }
{
    match base {
        Base::Bool => (x.cast_unsigned() % 2) as i32,
        Base::Byte => low_byte(x),
        Base::Char => low_char(x),
        Base::Short => low_short(x),
        Base::Int | Base::Long | Base::Class(_) => x,
    }
}

/// A value narrowed to a type.
#[inline(always)]
pub fn narrowed(ty: &Ty, value: Value) -> Value
    ensures { result ≡ narrowed_to ty.now value }
{
    match value {
        Value::Int(x) => {
            if ty.dims == 0 {
                Value::Int(narrowed_int(ty.base, x))
            } else {
                Value::Int(x)
            }
        }
        other => other,
    }
}

// The index of an element of an array, none out of bounds.
#[inline(always)]
pub fn index_in(heap: &Heap, at: u32, index: i32) -> Option<usize>
    requires { IsThere heap.now at }
    ensures { MatchOption result (found_in heap.now at index ≡ None) (λ k. (index ≡ pos k) × IsSome (element_at heap.now at k)) }
{
    if index < 0 {
        return None;
    }
    let index = index as usize;
    if index < heap.length(at) {
        Some(index)
    } else {
        None
    }
}
