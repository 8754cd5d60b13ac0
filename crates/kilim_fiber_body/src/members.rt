//! The members of `kilim/Fiber`, which woven code calls.

ghost use Rattle.std.specs.Prelude.{◌≡◌, ◌∷◌, [], true, Some, IfOk, OnOk};
ghost use Rattle.kilim_program.specs.declared.value.Value.TheVariants as a_value;
ghost use Rattle.kilim_run_machine.specs.Natives as native;
ghost use Rattle.kilim_fiber_laws.specs.woven_kin.Nexts.{member_next, with_result};
ghost use Rattle.kilim_fiber_body.specs.Body.{behind_at, operands_in, standing_at, HasFrames, HasOperands, RoomyIn, RoomIn};
ghost use Rattle.kilim_fiber_body.specs.Comes.{Comes, HasRoomFor, gives_result};
ghost use Rattle.kilim_fiber_steps.specs.records.Members.{did, Does, NotDone};
ghost use Rattle.kilim_fiber_steps.specs.records.natives.Natives.{member_meant};

use crate::body::{Body, Came};
use crate::operands::{take_place, take_value};
use crate::pass::{give, pass};
use kilim_fiber_steps::records::Records;
use kilim_fiber_steps::records::natives::Member;
use kilim_program::{Program, Value};
use kilim_units::NoMemory;
use std::alloc::Global;

/// It goes on behind a member without a result. No member counts.
pub fn pass_on(program: &Program, body: &mut Body)
    requires frames { HasFrames body.old.frames }
    requires roomy { RoomyIn program.now body.old.frames }
    ensures stands { standing_at 0 body.new ≡ behind_at 0 body.old }
    ensures roomy { RoomyIn program.now body.new.frames }
    ensures count { body.new.count ≡ body.old.count }
{
    let Some(frames) = &mut body.frames else {
        unreachable!()
    };
    pass(program, frames);
}

/// It goes on behind a member with a result.
pub fn pass_with(program: &Program, body: &mut Body, value: Value)
    requires roomy { RoomyIn program.now body.old.frames }
    requires room { RoomIn program.now body.old.frames }
    ensures stands { standing_at 0 body.new ≡ with_result (Some value) (behind_at 0 body.old) }
    ensures roomy { RoomyIn program.now body.new.frames }
    ensures count { body.new.count ≡ body.old.count }
{
    let Some(frames) = &mut body.frames else {
        unreachable!()
    };
    give(program, frames, value);
}

// What a member that has the fiber alone does to the records, and its result.
fn result_of(alloc: Global, member: Member, records: &mut Records) -> Result<Value, NoMemory>
    requires { did (member_meant member) (a_value.Fiber ∷ []) records.old ≡ NotDone → ⊥ }
    ensures { IfOk result (λ value. did (member_meant member) (a_value.Fiber ∷ []) records.old ≡ Does records.new (Some value)) }
{
    match member {
        Member::Pc => {
            let number = records.pc();
            Ok(Value::Int(number.cast_signed()))
        }
        Member::Down => {
            let Ok(()) = records.down(alloc) else {
                return Err(NoMemory);
            };
            Ok(Value::Fiber)
        }
        Member::Up => {
            let Ok(found) = records.up() else {
                return Err(NoMemory);
            };
            let Some(pauses) = found else { unreachable!() };
            Ok(Value::Int(i32::from(pauses)))
        }
        Member::Restore => {
            let Some(value) = records.restore() else {
                unreachable!()
            };
            Ok(value)
        }
        Member::Receiver => {
            let Ok(found) = records.receiver() else {
                return Err(NoMemory);
            };
            let Some(value) = found else { unreachable!() };
            Ok(value)
        }
        Member::Save | Member::Place => unreachable!(),
    }
}

// A member without arguments.
fn ask_alone(
    alloc: Global,
    program: &Program,
    member: Member,
    body: &mut Body,
) -> Result<Came, NoMemory>
    requires roomy { RoomyIn program.now body.old.frames }
    requires room { gives_result (Some (native.OfFiber (member_meant member))) ≡ true → RoomIn program.now body.old.frames }
    requires done { did (member_meant member) (a_value.Fiber ∷ []) body.old.records ≡ NotDone → ⊥ }
    ensures comes { IfOk result (λ came. Comes 0 (member_next (member_meant member) (a_value.Fiber ∷ []) (behind_at 0 body.old)) body.new came) }
    ensures roomy { OnOk result (RoomyIn program.now body.new.frames) }
    ensures count { OnOk result (body.new.count ≡ body.old.count) }
    ensures room { IfOk result (λ came. HasRoomFor program.now body.new came) }
{
    let Ok(value) = result_of(alloc, member, &mut body.records) else {
        return Err(NoMemory);
    };
    pass_with(program, body, value);
    Ok(Came::On)
}

// `save`: the value is moved off the stack.
fn save(program: &Program, body: &mut Body) -> Result<Came, NoMemory>
    requires frames { HasFrames body.old.frames }
    requires roomy { RoomyIn program.now body.old.frames }
    requires operands { HasOperands body.old.frames }
    requires done { did native.Save (operands_in body.old.frames) body.old.records ≡ NotDone → ⊥ }
    ensures comes { IfOk result (λ came. Comes 0 (member_next native.Save (operands_in body.old.frames) (behind_at 0 body.old)) body.new came) }
    ensures roomy { OnOk result (RoomyIn program.now body.new.frames) }
    ensures count { OnOk result (body.new.count ≡ body.old.count) }
    ensures room { IfOk result (λ came. HasRoomFor program.now body.new came) }
{
    let Some(frames) = &mut body.frames else {
        unreachable!()
    };
    let value = take_value(program, frames);
    let Ok(()) = body.records.save(value) else {
        return Err(NoMemory);
    };
    Ok(Came::On)
}

// `place`: the receiver is moved off the stack.
fn place(program: &Program, body: &mut Body) -> Came
    requires frames { HasFrames body.old.frames }
    requires roomy { RoomyIn program.now body.old.frames }
    requires operands { HasOperands body.old.frames }
    requires done { did native.Place (operands_in body.old.frames) body.old.records ≡ NotDone → ⊥ }
    ensures comes { Comes 0 (member_next native.Place (operands_in body.old.frames) (behind_at 0 body.old)) body.new result }
    ensures roomy { RoomyIn program.now body.new.frames }
    ensures count { body.new.count ≡ body.old.count }
    ensures room { HasRoomFor program.now body.new result }
{
    let Some(frames) = &mut body.frames else {
        unreachable!()
    };
    let (number, receiver) = take_place(program, frames);
    body.records.place(number, receiver);
    Came::On
}

/// A member.
pub fn ask_member(
    alloc: Global,
    program: &Program,
    member: Member,
    body: &mut Body,
) -> Result<Came, NoMemory>
    requires frames { HasFrames body.old.frames }
    requires roomy { RoomyIn program.now body.old.frames }
    requires room { gives_result (Some (native.OfFiber (member_meant member))) ≡ true → RoomIn program.now body.old.frames }
    requires operands { HasOperands body.old.frames }
    requires done { did (member_meant member) (operands_in body.old.frames) body.old.records ≡ NotDone → ⊥ }
    ensures comes { IfOk result (λ came. Comes 0 (member_next (member_meant member) (operands_in body.old.frames) (behind_at 0 body.old)) body.new came) }
    ensures roomy { OnOk result (RoomyIn program.now body.new.frames) }
    ensures count { OnOk result (body.new.count ≡ body.old.count) }
    ensures room { IfOk result (λ came. HasRoomFor program.now body.new came) }
{
    match member {
        Member::Save => save(program, body),
        Member::Place => Ok(place(program, body)),
        member => ask_alone(alloc, program, member, body),
    }
}
