//! The frames of woven code.

ghost use Rattle.std.specs.Prelude.{◌≡◌, ◌++◌, ◌<◌, ◌+◌, ℕ, Some, length, get_or, slice_get, map, drop, IfOk, OnOk};
ghost use Rattle.kilim_program.specs.declared.instr.Instr.{Instr};
ghost use Rattle.kilim_program.specs.declared.verified.VType.TheVariants.{Top};
ghost use Rattle.kilim_program.specs.Lengths.{first_place};
ghost use Rattle.kilim_type_spec.specs.Step.{peek};
ghost use Rattle.kilim_weave_spec.specs.Woven as form;
ghost use Rattle.kilim_weave_pieces.specs.Places.{at_in};
ghost use Rattle.kilim_weave_pieces.specs.Shown.{Shown};
ghost use Rattle.kilim_weave_pieces.specs.Meant.{Ready, meant};

use kilim_program::{ClassId, Frame, Instr, Method, VType};
use kilim_type_laws::listed_frames_show;
use kilim_type_spec::VerifiedFrame;
use kilim_units::{NoMemory, Seq};
use kilim_weave_pieces::{Places, Plan, class_vtype, type_at};
use std::alloc::Global;

/// The entry of a number.
pub fn entry_at(code: &[(u32, Instr)], at: usize) -> &(u32, Instr)
    requires { at < length code.now }
    ensures { slice_get code.now at ≡ Some result.now }
{
    &code[at]
}

fn behind_in(code: &[(u32, Instr)], end: u32, at: usize) -> u32
    requires { at < length code.now }
    ensures { result ≡ first_place (drop (at + 1) code.now) end }
{
    if at + 1 < code.len() {
        code[at + 1].0
    } else {
        end
    }
}

/// The entry of a number.
pub fn entry_of(method: &Method, at: usize) -> &(u32, Instr)
    requires { at < length method.now.code }
    ensures { slice_get method.now.code at ≡ Some result.now }
{
    method.code.get(at)
}

/// The place behind the entry of a number.
pub fn place_behind(method: &Method, at: usize) -> u32
    requires { at < length method.now.code }
    ensures { result ≡ first_place (drop (at + 1) method.now.code) method.now.code_length }
{
    let code = method.code.as_slice();
    behind_in(code, method.code_length, at)
}

/// The frame at the instruction of a number.
pub fn frame_at<'a>(plan: &Plan<'a>, at: usize) -> &'a VerifiedFrame
    requires ready { Ready plan.now }
    requires at { at < length plan.now.method.now.code }
    ensures { (e : ℕ × Instr) → slice_get plan.now.method.now.code at ≡ Some e → Shown (meant plan.now) e.0 result.now }
{
    listed_frames_show();
    frame_of(plan.frames, at)
}

fn frame_of(frames: &[VerifiedFrame], at: usize) -> &VerifiedFrame
    requires { at < length frames.now }
    ensures { slice_get frames.now at ≡ Some result.now }
{
    &frames[at]
}

fn moved_type(places: &Places, ty: VType) -> Result<VType, NoMemory>
    ensures { IfOk result (λ t. t ≡ form.moved_type (at_in places.now) ty) }
{
    match ty {
        VType::Uninit(place) => match places.at(place) {
            Ok(to) => Ok(VType::Uninit(to)),
            Err(fault) => Err(fault),
        },
        VType::Top
        | VType::Int
        | VType::Long
        | VType::Null
        | VType::UninitThis
        | VType::Object(_) => { Ok(ty) }
    }
}

fn type_or_top(types: &[VType], slot: u16) -> VType
    ensures { result ≡ get_or types.now slot Top }
{
    match types.get(usize::from(slot)) {
        Some(ty) => *ty,
        None => VType::Top,
    }
}

fn peek(types: &[VType], slot: u16) -> VType
    ensures { result ≡ peek types.now slot }
{
    type_or_top(types, slot)
}

// What a local of a frame becomes at a place.
fn kept_local(plan: &Plan, frame: &Frame, place: u32, slot: u16) -> Result<VType, NoMemory>
    requires { Shown (meant plan.now) place frame.now }
    ensures { IfOk result (λ t. t ≡ form.kept_local (meant plan.now) place slot) }
{
    if !plan.live.is_live(place, slot) {
        return Ok(VType::Top);
    }
    moved_type(plan.places, peek(frame.locals.as_slice(), slot))
}

fn push_added(plan: &Plan, locals: &mut Vec<VType>) -> Result<(), NoMemory>
    ensures { OnOk result (locals.new.items ≡ locals.old.items ++ form.added_types (meant plan.now)) }
{
    let Ok(()) = locals.push(class_vtype(ClassId(plan.class))) else {
        return Err(NoMemory);
    };
    if !plan.method.is_static {
        let Ok(()) = locals.push(class_vtype(plan.method.owner)) else {
            return Err(NoMemory);
        };
    }
    Ok(())
}

fn moved_types(alloc: Global, places: &Places, types: &[VType]) -> Result<Vec<VType>, NoMemory>
    ensures { IfOk result (λ v. v.items ≡ map (form.moved_type (at_in places.now)) types.now) }
{
    let mut moved = Vec::new(alloc);
    for at in 0..types.len() {
        let ty = type_at(types, at);
        let Ok(new) = moved_type(places, ty) else {
            return Err(NoMemory);
        };
        let Ok(()) = moved.push(new) else {
            return Err(NoMemory);
        };
    }
    Ok(moved)
}

fn kept_locals(
    alloc: Global,
    plan: &Plan,
    frame: &Frame,
    place: u32,
) -> Result<Vec<VType>, NoMemory>
    requires { Shown (meant plan.now) place frame.now }
    ensures { IfOk result (λ v. v.items ≡ form.slots_from 0 (form.fiber_slot plan.now.method.now) (form.kept_local (meant plan.now) place)) }
{
    let mut locals = Vec::new(alloc);
    for slot in 0..plan.fiber {
        let Ok(ty) = kept_local(plan, frame, place, slot) else {
            return Err(NoMemory);
        };
        let Ok(()) = locals.push(ty) else {
            return Err(NoMemory);
        };
    }
    Ok(locals)
}

/// The frame at an old place.
pub fn old_frame(alloc: Global, plan: &Plan, frame: &Frame, place: u32) -> Result<Frame, NoMemory>
    requires { Shown (meant plan.now) place frame.now }
    ensures { IfOk result (λ f. f ≡ form.old_frame (meant plan.now) place) }
{
    let Ok(mut locals) = kept_locals(alloc, plan, frame, place) else {
        return Err(NoMemory);
    };
    let Ok(()) = push_added(plan, &mut locals) else {
        return Err(NoMemory);
    };
    let types = frame.stack.as_slice();
    let Ok(moved) = moved_types(alloc, plan.places, types) else {
        return Err(NoMemory);
    };
    let kept = Seq::from_vec(locals);
    let stack = Seq::from_vec(moved);
    Ok(Frame {
        locals: kept,
        stack,
    })
}

fn tops(alloc: Global, count: u16) -> Result<Vec<VType>, NoMemory>
    ensures { IfOk result (λ v. v.items ≡ form.slots_from 0 count (λ slot. Top)) }
{
    let mut locals = Vec::new(alloc);
    for _ in 0..count {
        let Ok(()) = locals.push(VType::Top) else {
            return Err(NoMemory);
        };
    }
    Ok(locals)
}

/// The frame at a resume block.
pub fn resume_frame(alloc: Global, plan: &Plan) -> Result<Frame, NoMemory>
    ensures { IfOk result (λ f. f ≡ form.resume_frame (meant plan.now)) }
{
    let Ok(mut locals) = tops(alloc, plan.fiber) else {
        return Err(NoMemory);
    };
    let Ok(()) = push_added(plan, &mut locals) else {
        return Err(NoMemory);
    };
    Ok(Frame {
        locals: Seq::from_vec(locals),
        stack: Seq::new(alloc),
    })
}
