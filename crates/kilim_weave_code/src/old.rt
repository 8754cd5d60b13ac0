//! The old code, with a group for each pausable call.

ghost use Rattle.std.specs.Prelude.{◌≡◌, ◌<◌, ◌+◌, None, true, length, is_some, option_copied, IfOk, OnOk};
ghost use Rattle.kilim_type_spec.specs.Typed.{declared};
ghost use Rattle.kilim_weave_spec.specs.Weight.{calls_in};
ghost use Rattle.kilim_weave_spec.specs.Woven as form;
ghost use Rattle.kilim_weave_pieces.specs.Shown.{Shown, first_here};
ghost use Rattle.kilim_weave_pieces.specs.Meant.{Ready, meant};
ghost use Rattle.kilim_weave_pieces.specs.Items.{items_of};

use crate::frames::{entry_of, frame_at, old_frame, place_behind};
use crate::group::group;
use crate::moved::{moved, old_size};
use kilim_program::{Frame, Instr, Method};
use kilim_type_spec::VerifiedFrame;
use kilim_units::NoMemory;
use kilim_weave_pieces::{Item, Items, Label, Plan, pausable_callee};
use std::alloc::Global;

fn is_declared(plan: &Plan, place: u32) -> bool
    ensures { result ≡ is_some (declared plan.now.method.now place) }
{
    match plan.flags.get(place as usize) {
        Some(mark) => *mark,
        None => false,
    }
}

fn frame_if(
    alloc: Global,
    plan: &Plan,
    is_needed: bool,
    place: u32,
    verified: &VerifiedFrame,
) -> Result<Option<Frame>, NoMemory>
    requires { Shown (meant plan.now) place verified.now }
    ensures { IfOk result (λ f. f ≡ form.frame_if is_needed (meant plan.now) place) }
{
    if !is_needed {
        return Ok(None);
    }
    let Ok(frame) = verified.frame(alloc) else {
        return Err(NoMemory);
    };
    let Ok(declared) = old_frame(alloc, plan, &frame, place) else {
        return Err(NoMemory);
    };
    Ok(Some(declared))
}

// An instruction that is no pausable call.
fn plain(
    alloc: Global,
    plan: &Plan,
    first: bool,
    place: u32,
    next: u32,
    instr: &Instr,
    verified: &VerifiedFrame,
    items: &mut Items,
) -> Result<(), NoMemory>
    requires { Shown (meant plan.now) place verified.now }
    ensures { OnOk result (items_of items.new ≡ form.piece None (meant plan.now) first 0 place next instr.now (items_of items.old)) }
{
    let Ok(size) = old_size(instr, place, next) else {
        return Err(NoMemory);
    };
    let Ok(instr) = moved(alloc, plan.places, instr) else {
        return Err(NoMemory);
    };
    let Ok(()) = items.put(Item::Adds(instr, size, true)) else {
        return Err(NoMemory);
    };
    let is_needed = first || is_declared(plan, place);
    let Ok(declared) = frame_if(alloc, plan, is_needed, place, verified) else {
        return Err(NoMemory);
    };
    items.put(Item::Stands(Label::Old(place), declared))
}

// What comes of one old instruction.
fn piece(
    alloc: Global,
    plan: &Plan,
    callee: Option<&Method>,
    first: bool,
    number: u32,
    place: u32,
    next: u32,
    instr: &Instr,
    verified: &VerifiedFrame,
    items: &mut Items,
) -> Result<(), NoMemory>
    requires { Shown (meant plan.now) place verified.now }
    ensures { OnOk result (items_of items.new ≡ form.piece (option_copied callee.entry) (meant plan.now) first number place next instr.now (items_of items.old)) }
{
    match callee {
        None => plain(alloc, plan, first, place, next, instr, verified, items),
        Some(callee) => {
            let Ok(frame) = verified.frame(alloc) else {
                return Err(NoMemory);
            };
            group(
                alloc, plan, number, callee, place, next, instr, &frame, items,
            )
        }
    }
}

// Whether an instruction stands at the first place or behind a pausable call, by its number.
fn is_first(plan: &Plan, at: usize) -> bool
    requires { at < length plan.now.method.now.code }
    ensures { result ≡ first_here plan.now.program.now plan.now.method.now.code at }
{
    if at == 0 {
        return true;
    }
    let before = entry_of(plan.method, at - 1);
    let callee = pausable_callee(plan.program, &before.1);
    callee.is_some()
}

/// The number of the next pausable call from an instruction on, where it is the given one from behind it on.
pub fn number_before(callee: Option<&Method>, number: u32) -> u32
    requires { 0 < number }
    ensures { form.count (option_copied callee.entry) result ≡ number }
{
    match callee {
        None => number,
        Some(_) => number - 1,
    }
}

/// The old code, put before the items behind it. `number` is one more than the number of its pausable calls.
pub fn pieces(alloc: Global, plan: &Plan, number: u32, items: &mut Items) -> Result<(), NoMemory>
    requires ready { Ready plan.now }
    requires number { number ≡ 1 + calls_in plan.now.program.now plan.now.method.now.code }
    ensures { OnOk result (items_of items.new ≡ form.pieces (meant plan.now) true 1 plan.now.method.now.code (items_of items.old)) }
{
    let mut left = plan.method.code.len();
    let mut number = number;
    while left > 0 {
        left -= 1;
        let entry = entry_of(plan.method, left);
        let next = place_behind(plan.method, left);
        let callee = pausable_callee(plan.program, &entry.1);
        let frame = frame_at(plan, left);
        let mine = number_before(callee, number);
        number = mine;
        let first = is_first(plan, left);
        let Ok(()) = piece(
            alloc, plan, callee, first, mine, entry.0, next, &entry.1, frame, items,
        ) else {
            return Err(NoMemory);
        };
    }
    Ok(())
}
