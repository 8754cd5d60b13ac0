//! Resume blocks. All is put before the items behind it.

ghost use Rattle.std.specs.Prelude.{◌≡◌, ◌∷◌, ◌<◌, ◌+◌, Some, [], drop, reverse, slice_get, length, option_copied, OnOk};
ghost use Rattle.kilim_weave_spec.specs.Weight.{calls_in};
ghost use Rattle.kilim_weave_spec.specs.Woven as form;
ghost use Rattle.kilim_weave_pieces.specs.Shown.{Shown};
ghost use Rattle.kilim_weave_pieces.specs.Meant.{Ready, meant};
ghost use Rattle.kilim_weave_pieces.specs.Items.{items_of};
ghost use Rattle.kilim_weave_pieces.specs.Places.{at_in};
ghost use Rattle.kilim_program.specs.declared.instr.Instr.TheVariants.{Goto};

use crate::frames::{entry_of, frame_at, place_behind, resume_frame};
use crate::group::{below, saved};
use crate::old::number_before;
use kilim_program::{Frame, Instr, Method, Ty, VType};
use kilim_type_spec::VerifiedFrame;
use kilim_units::NoMemory;
use kilim_weave_pieces::{
    Item, Items, Label, Plan, add, call_fiber, dummy_of, go_back, pausable_callee, restore_locals,
    restore_stack, type_at, vtype,
};
use std::alloc::Global;

fn receiver_of(plan: &Plan, ty: VType, items: &mut Items) -> Result<(), NoMemory>
    ensures { OnOk result (items_of items.new ≡ form.receiver_of (meant plan.now) ty (items_of items.old)) }
{
    match ty {
        VType::Object(ty) => {
            let Ok(()) = add(items, Instr::Checkcast(ty), 3) else {
                return Err(NoMemory);
            };
            call_fiber(plan, 10, items)
        }
        VType::Top
        | VType::Int
        | VType::Long
        | VType::Null
        | VType::UninitThis
        | VType::Uninit(_) => add(items, Instr::AconstNull, 1),
    }
}

fn restore_receiver(
    plan: &Plan,
    is_static: bool,
    ty: VType,
    items: &mut Items,
) -> Result<(), NoMemory>
    ensures { OnOk result (items_of items.new ≡ form.restore_receiver is_static (meant plan.now) ty (items_of items.old)) }
{
    if is_static {
        return Ok(());
    }
    receiver_of(plan, ty, items)
}

// The type of the receiver of a call.
fn receiver(frame: &Frame, callee: &Method) -> VType
    ensures { result ≡ form.first_of (drop (length callee.now.params) (reverse frame.now.stack)) }
{
    let stack = frame.stack.as_slice();
    let depth = callee.params.len();
    let left = stack.len().saturating_sub(depth);
    if left == 0 {
        return VType::Null;
    }
    type_at(stack, left - 1)
}

// The locals that were saved.
fn restore_saved(
    alloc: Global,
    plan: &Plan,
    place: u32,
    next: u32,
    frame: &Frame,
    items: &mut Items,
) -> Result<(), NoMemory>
    requires { Shown (meant plan.now) place frame.now }
    ensures { OnOk result (items_of items.new ≡ form.restore_locals (meant plan.now) (form.saved (meant plan.now) place next) (items_of items.old)) }
{
    let Ok(saved) = saved(alloc, plan, frame, place, next) else {
        return Err(NoMemory);
    };
    let restored = restore_locals(plan, saved.as_slice(), items);
    drop(saved);
    restored
}

fn resume_code(
    alloc: Global,
    plan: &Plan,
    callee: &Method,
    place: u32,
    next: u32,
    frame: &Frame,
    items: &mut Items,
) -> Result<(), NoMemory>
    requires { Shown (meant plan.now) place frame.now }
    ensures { OnOk result (items_of items.new ≡ form.resume_code (meant plan.now) callee.now place next (items_of items.old)) }
{
    let Ok(()) = go_back(plan, callee, place, items) else {
        return Err(NoMemory);
    };
    let Ok(()) = restore_receiver(plan, callee.is_static, receiver(frame, callee), items) else {
        return Err(NoMemory);
    };
    let Ok(below) = below(frame, callee) else {
        return Err(NoMemory);
    };
    let Ok(()) = restore_stack(plan, below, items) else {
        return Err(NoMemory);
    };
    restore_saved(alloc, plan, place, next, frame, items)
}

fn block(
    alloc: Global,
    plan: &Plan,
    callee: Option<&Method>,
    number: u32,
    place: u32,
    next: u32,
    verified: &VerifiedFrame,
    items: &mut Items,
) -> Result<(), NoMemory>
    requires { Shown (meant plan.now) place verified.now }
    ensures { OnOk result (items_of items.new ≡ form.block (option_copied callee.entry) (meant plan.now) number place next (items_of items.old)) }
{
    match callee {
        None => Ok(()),
        Some(callee) => {
            let Ok(frame) = verified.frame(alloc) else {
                return Err(NoMemory);
            };
            let Ok(()) = resume_code(alloc, plan, callee, place, next, &frame, items) else {
                return Err(NoMemory);
            };
            let Ok(declared) = resume_frame(alloc, plan) else {
                return Err(NoMemory);
            };
            items.put(Item::Stands(Label::Resumes(number), Some(declared)))
        }
    }
}

/// The resume blocks. `number` is one more than the number of the pausable calls.
pub fn blocks(alloc: Global, plan: &Plan, number: u32, items: &mut Items) -> Result<(), NoMemory>
    requires ready { Ready plan.now }
    requires number { number ≡ 1 + calls_in plan.now.program.now plan.now.method.now.code }
    requires none { (items_of items.old) ≡ [] }
    ensures { OnOk result (items_of items.new ≡ form.blocks (meant plan.now) 1 plan.now.method.now.code) }
{
    let mut left = plan.method.code.len();
    let mut number = number;
    while left > 0 {
        left -= 1;
        let entry = entry_of(plan.method, left);
        let next = place_behind(plan.method, left);
        let callee = pausable_callee(plan.program, &entry.1);
        let frame = frame_at(plan, left);
        let mine = number_before(callee, number);
        number = mine;
        let Ok(()) = block(alloc, plan, callee, mine, entry.0, next, frame, items) else {
            return Err(NoMemory);
        };
    }
    Ok(())
}
