//! The group of a pausable call. All is put before the items behind it.

ghost use Rattle.std.specs.Prelude.{◌≡◌, ◌<◌, ◌^◌, ◌∷◌, ◌++◌, ◌&&◌, [], Some, true, not, drop, reverse, if◌then◌else◌, IfOk, OnOk};
ghost use Rattle.kilim_type_spec.specs.Step.{is_top};
ghost use Rattle.kilim_type_flow.specs.Table.{live_in};
ghost use Rattle.kilim_weave_spec.specs.Woven as form;
ghost use Rattle.kilim_weave_pieces.specs.Shown.{Shown};
ghost use Rattle.kilim_weave_pieces.specs.Meant.{meant};
ghost use Rattle.kilim_weave_pieces.specs.Items.{items_of};

use crate::copies::copied;
use crate::frames::old_frame;
use kilim_program::{Frame, Instr, Method, Ty, VType};
use kilim_units::{NoMemory, unmet};
use kilim_weave_pieces::{
    Item, Items, Label, Plan, Size, add, call_fiber, dummy_of, local_size, pop_of, return_of,
    save_fiber, save_locals, save_stack, taken, type_at, vtype,
};
use std::alloc::Global;

fn is_top(ty: VType) -> bool
    ensures { result ≡ is_top ty }
{
    match ty {
        VType::Top => true,
        VType::Int
        | VType::Long
        | VType::Null
        | VType::UninitThis
        | VType::Uninit(_)
        | VType::Object(_) => false,
    }
}

// A law, and no work: a method has at most 65,535 locals.
fn locals_fit(method: &Method)
    ensures { method.now.max_locals < 2 ^ 16 }
{
    let _most = method.max_locals;
}

fn local_of(at: usize) -> u16
    requires { at < 2 ^ 16 }
    ensures { result ≡ at }
{
    at as u16
}

// One more local, where it is live at a place.
fn push_saved(
    plan: &Plan,
    next: u32,
    slot: u16,
    ty: VType,
    saved: &mut Vec<(u16, VType)>,
) -> Result<(), NoMemory>
    ensures { OnOk result (saved.new.items ≡ saved.old.items ++ (if live_in plan.now.live.now next slot && not (is_top ty) then (slot, ty) ∷ [] else [])) }
{
    if plan.live.is_live(next, slot) && !is_top(ty) {
        let Ok(()) = saved.push((slot, ty)) else {
            return Err(NoMemory);
        };
    }
    Ok(())
}

/// The locals that are live behind a pausable call, with their types at the call.
pub fn saved(
    alloc: Global,
    plan: &Plan,
    frame: &Frame,
    place: u32,
    next: u32,
) -> Result<Vec<(u16, VType)>, NoMemory>
    requires { Shown (meant plan.now) place frame.now }
    ensures { IfOk result (λ v. v.items ≡ form.saved (meant plan.now) place next) }
{
    locals_fit(plan.method);
    let locals = frame.locals.as_slice();
    let mut saved = Vec::new(alloc);
    for at in 0..locals.len() {
        let slot = local_of(at);
        let ty = type_at(locals, at);
        let Ok(()) = push_saved(plan, next, slot, ty, &mut saved) else {
            return Err(NoMemory);
        };
    }
    Ok(saved)
}

/// The stack below the receiver and the arguments of a call, the bottom first.
pub fn below<'a>(frame: &'a Frame, callee: &Method) -> Result<&'a [VType], NoMemory>
    ensures { IfOk result (λ v. reverse v.now ≡ drop (form.taken callee.now) (reverse frame.now.stack)) }
{
    let stack = frame.stack.as_slice();
    let Ok(count) = taken(callee) else {
        return Err(NoMemory);
    };
    let left = stack.len().saturating_sub(count);
    let parts = stack.split_at(left);
    Ok(parts.0)
}

fn add_number(number: u32, items: &mut Items) -> Result<(), NoMemory>
    ensures { OnOk result (items_of items.new ≡ form.number_item number ∷ (items_of items.old)) }
{
    if number <= 5 {
        return add(items, Instr::Iconst(number as i32), 1);
    }
    if number <= 127 {
        return add(items, Instr::Bipush(number as i8), 2);
    }
    match i16::try_from(number) {
        Ok(number) => add(items, Instr::Sipush(number), 3),
        // unmet: a method that isn't too long has at most 32,767 pausable calls
        Err(_) => Err(unmet()),
    }
}

fn add_self(plan: &Plan, items: &mut Items) -> Result<(), NoMemory>
    ensures { OnOk result (items_of items.new ≡ form.self_item (meant plan.now) ∷ (items_of items.old)) }
{
    if plan.method.is_static {
        return add(items, Instr::AconstNull, 1);
    }
    add(
        items,
        Instr::Aload(plan.receiver),
        local_size(plan.receiver),
    )
}

fn dummy_return(gives: Option<Ty>, items: &mut Items) -> Result<(), NoMemory>
    ensures { OnOk result (items_of items.new ≡ form.dummy_return gives (items_of items.old)) }
{
    match gives {
        None => add(items, Instr::Return, 1),
        Some(ty) => {
            let Ok(()) = add(items, return_of(vtype(ty)), 1) else {
                return Err(NoMemory);
            };
            add(items, dummy_of(vtype(ty)), 1)
        }
    }
}

fn drop_result(gives: Option<Ty>, items: &mut Items) -> Result<(), NoMemory>
    ensures { OnOk result (items_of items.new ≡ form.drop_result gives (items_of items.old)) }
{
    match gives {
        None => Ok(()),
        Some(ty) => add(items, pop_of(vtype(ty)), 1),
    }
}

// The number of the call and the receiver, for the fiber to keep.
fn note_place(plan: &Plan, number: u32, items: &mut Items) -> Result<(), NoMemory>
    ensures { OnOk result (items_of items.new ≡ form.number_item number ∷ form.self_item (meant plan.now) ∷ form.load_fiber (meant plan.now) ∷ form.calls_static (meant plan.now) 6 ∷ (items_of items.old)) }
{
    let Ok(()) = save_fiber(plan, 6, items) else {
        return Err(NoMemory);
    };
    let Ok(()) = add_self(plan, items) else {
        return Err(NoMemory);
    };
    add_number(number, items)
}

// The saves of the locals that are live behind the call.
fn save_live(
    alloc: Global,
    plan: &Plan,
    place: u32,
    next: u32,
    frame: &Frame,
    items: &mut Items,
) -> Result<(), NoMemory>
    requires { Shown (meant plan.now) place frame.now }
    ensures { OnOk result (items_of items.new ≡ form.save_locals (meant plan.now) (form.saved (meant plan.now) place next) (items_of items.old)) }
{
    let Ok(saved) = saved(alloc, plan, frame, place, next) else {
        return Err(NoMemory);
    };
    let kept = save_locals(plan, saved.as_slice(), items);
    drop(saved);
    kept
}

// What leaves the method where the fiber is pausing: the saves, the place, a dummy return.
fn leave(
    alloc: Global,
    plan: &Plan,
    number: u32,
    callee: &Method,
    place: u32,
    next: u32,
    frame: &Frame,
    items: &mut Items,
) -> Result<(), NoMemory>
    requires { Shown (meant plan.now) place frame.now }
    ensures { OnOk result (items_of items.new ≡ form.leave (meant plan.now) number callee.now place next (items_of items.old)) }
{
    let Ok(()) = dummy_return(plan.method.result, items) else {
        return Err(NoMemory);
    };
    let Ok(()) = note_place(plan, number, items) else {
        return Err(NoMemory);
    };
    let Ok(()) = save_live(alloc, plan, place, next, frame, items) else {
        return Err(NoMemory);
    };
    let Ok(below) = below(frame, callee) else {
        return Err(NoMemory);
    };
    save_stack(plan, below, items)
}

// The call itself, one level below.
fn call_below(plan: &Plan, instr: &Instr, items: &mut Items) -> Result<(), NoMemory>
    ensures { OnOk result (items_of items.new ≡ form.load_fiber (meant plan.now) ∷ form.calls_member (meant plan.now) 1 ∷ form.Does instr.now (λ place. 3) true ∷ (items_of items.old)) }
{
    let Ok(copy) = copied(instr) else {
        return Err(NoMemory);
    };
    let Ok(()) = items.put(Item::Adds(copy, Size::Fixed(3), true)) else {
        return Err(NoMemory);
    };
    call_fiber(plan, 1, items)
}

// The old place, with the frame that is declared there.
fn declare(
    alloc: Global,
    plan: &Plan,
    frame: &Frame,
    place: u32,
    items: &mut Items,
) -> Result<(), NoMemory>
    requires { Shown (meant plan.now) place frame.now }
    ensures { OnOk result (items_of items.new ≡ form.Mark (form.Old place) (Some (form.old_frame (meant plan.now) place)) ∷ (items_of items.old)) }
{
    let Ok(declared) = old_frame(alloc, plan, frame, place) else {
        return Err(NoMemory);
    };
    items.put(Item::Stands(Label::Old(place), Some(declared)))
}

/// The group of a pausable call.
pub fn group(
    alloc: Global,
    plan: &Plan,
    number: u32,
    callee: &Method,
    place: u32,
    next: u32,
    instr: &Instr,
    frame: &Frame,
    items: &mut Items,
) -> Result<(), NoMemory>
    requires { Shown (meant plan.now) place frame.now }
    ensures { OnOk result (items_of items.new ≡ form.group (meant plan.now) number callee.now place next instr.now (items_of items.old)) }
{
    let Ok(()) = leave(alloc, plan, number, callee, place, next, frame, items) else {
        return Err(NoMemory);
    };
    let Ok(()) = drop_result(callee.result, items) else {
        return Err(NoMemory);
    };
    let Ok(behind) = plan.places.at(next) else {
        return Err(NoMemory);
    };
    let Ok(()) = add(items, Instr::Ifeq(behind), 3) else {
        return Err(NoMemory);
    };
    let Ok(()) = call_fiber(plan, 2, items) else {
        return Err(NoMemory);
    };
    let Ok(()) = call_below(plan, instr, items) else {
        return Err(NoMemory);
    };
    declare(alloc, plan, frame, place, items)
}
