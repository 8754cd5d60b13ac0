//! The members of `kilim/Fiber` and `yield`, which woven code calls, on a frame and on the fiber's records.

ghost use Rattle.std.specs.Prelude.{◌≡◌, ◌<◌, ◌≤◌, ◌^◌, ◌∷◌, [], ℕ, true, pos, length, take, drop, reverse, slice_get, Some, IfOk, OnOk, if◌then◌else◌};
ghost use Rattle.kilim_program.specs.declared.value.Value.TheVariants as a_value;
ghost use Rattle.kilim_run_machine.specs.Natives as native;
ghost use Rattle.kilim_fiber_steps.specs.records.Members.{did, Does, NotDone};
ghost use Rattle.kilim_fiber_steps.specs.records.natives.Natives.{member_meant};
ghost use Rattle.kilim_fiber_steps.specs.Woven.{HasYielded, IsDone, gives_value};
ghost use Rattle.kilim_fiber_spec.specs.Fibers.{pausing, rewound};

use crate::records::Records;
use crate::records::natives::Member;
use kilim_program::Value;
use kilim_run_state::frames::Frame;
use kilim_units::NoMemory;
use std::alloc::Global;

// What a member that has the fiber alone does to the records, and its result.
#[inline(always)]
fn result_of(alloc: Global, member: Member, records: &mut Records) -> Result<Value, NoMemory>
    requires { did (member_meant member) (a_value.Fiber ∷ []) records.old ≡ NotDone → ⊥ }
    ensures { IfOk result (λ value. did (member_meant member) (a_value.Fiber ∷ []) records.old ≡ Does records.new (Some value)) }
{
    match member {
        Member::Pc => {
            let number = records.pc();
            Ok(Value::Int(number.cast_signed()))
        }
        Member::Down => {
            let Ok(()) = records.down(alloc) else {
                return Err(NoMemory);
            };
            Ok(Value::Fiber)
        }
        Member::Up => {
            let Ok(found) = records.up() else {
                return Err(NoMemory);
            };
            let Some(pauses) = found else { unreachable!() };
            Ok(Value::Int(i32::from(pauses)))
        }
        Member::Restore => {
            let Some(value) = records.restore() else {
                unreachable!()
            };
            Ok(value)
        }
        Member::Receiver => {
            let Ok(found) = records.receiver() else {
                return Err(NoMemory);
            };
            let Some(value) = found else { unreachable!() };
            Ok(value)
        }
        Member::Save | Member::Place => unreachable!(),
    }
}

// The fiber, the topmost value, leaves the stack.
#[inline(always)]
fn drop_fiber(frame: &mut Frame)
    requires { 0 < length frame.old.stack.values }
    ensures { frame.new ≡ record frame.old { stack = record frame.old.stack { values = drop 1 frame.old.stack.values } } }
{
    let fiber = frame.stack.pop();
    drop(fiber);
}

#[inline(always)]
fn top_of(frame: &mut Frame) -> Value
    requires { 0 < length frame.old.stack.values }
    ensures { frame.old ≡ record frame.new { stack = record frame.new.stack { values = result ∷ frame.new.stack.values } } }
{
    frame.stack.pop()
}

#[inline(always)]
fn put_on(frame: &mut Frame, value: Value)
    requires { length frame.old.stack.values < frame.old.stack.room }
    ensures { frame.new ≡ record frame.old { stack = record frame.old.stack { values = value ∷ frame.old.stack.values } } }
{
    frame.stack.push(value);
}

// A member without arguments.
#[inline(always)]
fn do_alone(
    alloc: Global,
    member: Member,
    frame: &mut Frame,
    records: &mut Records,
) -> Result<(), NoMemory>
    requires args { reverse (take 1 frame.old.stack.values) ≡ a_value.Fiber ∷ [] }
    requires there { 1 ≤ length frame.old.stack.values }
    requires room { gives_value (member_meant member) ≡ true → length (drop 1 frame.old.stack.values) < frame.old.stack.room }
    requires done { did (member_meant member) (a_value.Fiber ∷ []) records.old ≡ NotDone → ⊥ }
    ensures { OnOk result (IsDone (member_meant member) 1 frame.old records.old frame.new records.new) }
{
    let Ok(value) = result_of(alloc, member, records) else {
        return Err(NoMemory);
    };
    drop_fiber(frame);
    put_on(frame, value);
    Ok(())
}

// `save`: the value is moved off the stack.
#[inline(always)]
fn save(frame: &mut Frame, records: &mut Records) -> Result<(), NoMemory>
    requires there { 2 ≤ length frame.old.stack.values }
    requires last { slice_get frame.old.stack.values 0 ≡ Some a_value.Fiber }
    ensures { OnOk result (IsDone native.Save 2 frame.old records.old frame.new records.new) }
{
    drop_fiber(frame);
    let value = top_of(frame);
    let Ok(()) = records.save(value) else {
        return Err(NoMemory);
    };
    Ok(())
}

// The number that an int is, which isn't negative.
#[inline(always)]
fn number_of(value: Value) -> u32
    requires { (n : ℕ) × (value ≡ a_value.Int (pos n)) }
    ensures { (value ≡ a_value.Int (pos result)) × (result < 2 ^ 31) }
{
    match value {
        Value::Int(number) => match u32::try_from(number) {
            Ok(number) => number,
            Err(_) => unreachable!(),
        },
        _ => unreachable!(),
    }
}

// `place`: the receiver is moved off the stack.
#[inline(always)]
fn place(frame: &mut Frame, records: &mut Records)
    requires there { 3 ≤ length frame.old.stack.values }
    requires last { slice_get frame.old.stack.values 0 ≡ Some a_value.Fiber }
    requires first { (n : ℕ) × (slice_get frame.old.stack.values 2 ≡ Some (a_value.Int (pos n))) }
    ensures { IsDone native.Place 3 frame.old records.old frame.new records.new }
{
    drop_fiber(frame);
    let receiver = top_of(frame);
    let int = top_of(frame);
    let number = number_of(int);
    records.place(number, receiver);
}

/// Does a member with so many operands on top of a frame's stack.
#[inline(always)]
pub fn do_member(
    alloc: Global,
    member: Member,
    count: usize,
    frame: &mut Frame,
    records: &mut Records,
) -> Result<(), NoMemory>
    requires there { count ≤ length frame.old.stack.values }
    requires room { gives_value (member_meant member) ≡ true → length (drop count frame.old.stack.values) < frame.old.stack.room }
    requires done { did (member_meant member) (reverse (take count frame.old.stack.values)) records.old ≡ NotDone → ⊥ }
    ensures { OnOk result (IsDone (member_meant member) count frame.old records.old frame.new records.new) }
{
    let _ = count;
    match member {
        Member::Save => save(frame, records),
        Member::Place => {
            place(frame, records);
            Ok(())
        }
        member => do_alone(alloc, member, frame, records),
    }
}

// What a `yield` does to the records: one of a live fiber pauses, one that is made again ends the rewinding.
#[inline(always)]
fn turn(alloc: Global, live: bool, records: &mut Records)
    ensures { records.new ≡ (if live then pausing a_value.Null records.old else rewound records.old) }
{
    if live {
        records.pause(alloc, Value::Null);
    } else {
        records.end_rewinding(alloc);
    }
}

/// Makes a `yield` with so many operands on top of a frame's stack.
#[inline(always)]
pub fn do_yield(alloc: Global, live: bool, count: usize, frame: &mut Frame, records: &mut Records)
    requires there { count ≤ length frame.old.stack.values }
    requires args { reverse (take count frame.old.stack.values) ≡ a_value.Fiber ∷ [] }
    ensures { HasYielded live count frame.old records.old frame.new records.new }
{
    let _ = count;
    drop_fiber(frame);
    turn(alloc, live, records);
}
