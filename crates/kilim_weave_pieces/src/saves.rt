//! Saves and restores. Each is put before the items behind it.

ghost use Rattle.std.specs.Prelude.{◌≡◌, ◌<◌, Some, length, slice_get, reverse, OnOk};
ghost use Rattle.kilim_weave_spec.specs.Woven as form;
ghost use Rattle.kilim_weave_pieces.specs.Meant.{meant};
ghost use Rattle.kilim_weave_pieces.specs.Items.{items_of};

use crate::item::Items;
use crate::parts::{add, call_fiber, load_of, local_size, save_fiber, store_of};
use crate::plan::Plan;
use kilim_program::{Instr, VType};
use kilim_units::NoMemory;

/// The type at an index.
pub fn type_at(types: &[VType], at: usize) -> VType
    requires { at < length types.now }
    ensures { slice_get types.now at ≡ Some result }
{
    types[at]
}

/// Saves the value on top of the stack.
pub fn save(plan: &Plan, ty: VType, items: &mut Items) -> Result<(), NoMemory>
    ensures { OnOk result (items_of items.new ≡ form.save (meant plan.now) ty (items_of items.old)) }
{
    match ty {
        VType::Int => save_fiber(plan, 3, items),
        VType::Long => save_fiber(plan, 4, items),
        VType::Object(_) => save_fiber(plan, 5, items),
        VType::Top | VType::Null | VType::UninitThis | VType::Uninit(_) => {
            add(items, Instr::Pop, 1)
        }
    }
}

/// Saves a stack, the bottom first: what is on top is saved first.
pub fn save_stack(plan: &Plan, stack: &[VType], items: &mut Items) -> Result<(), NoMemory>
    ensures { OnOk result (items_of items.new ≡ form.save_stack (meant plan.now) (reverse stack.now) (items_of items.old)) }
{
    for at in 0..stack.len() {
        save(plan, type_at(stack, at), items)?;
    }
    Ok(())
}

fn pair_at(pairs: &[(u16, VType)], at: usize) -> (u16, VType)
    requires { at < length pairs.now }
    ensures { slice_get pairs.now at ≡ Some result }
{
    pairs[at]
}

fn save_local(plan: &Plan, slot: u16, ty: VType, items: &mut Items) -> Result<(), NoMemory>
    ensures { OnOk result (items_of items.new ≡ form.save_local (meant plan.now) slot ty (items_of items.old)) }
{
    match ty {
        VType::Null => Ok(()),
        VType::Top
        | VType::Int
        | VType::Long
        | VType::UninitThis
        | VType::Uninit(_)
        | VType::Object(_) => {
            save(plan, ty, items)?;
            add(items, load_of(slot, ty), local_size(slot))
        }
    }
}

/// Saves locals, the first one first.
pub fn save_locals(plan: &Plan, locals: &[(u16, VType)], items: &mut Items) -> Result<(), NoMemory>
    ensures { OnOk result (items_of items.new ≡ form.save_locals (meant plan.now) locals.now (items_of items.old)) }
{
    let mut left = locals.len();
    while left > 0 {
        left -= 1;
        let local = pair_at(locals, left);
        save_local(plan, local.0, local.1, items)?;
    }
    Ok(())
}

/// Pushes the value that was saved last.
pub fn restore(plan: &Plan, ty: VType, items: &mut Items) -> Result<(), NoMemory>
    ensures { OnOk result (items_of items.new ≡ form.restore (meant plan.now) ty (items_of items.old)) }
{
    match ty {
        VType::Int => call_fiber(plan, 7, items),
        VType::Long => call_fiber(plan, 8, items),
        VType::Object(ty) => {
            add(items, Instr::Checkcast(ty), 3)?;
            call_fiber(plan, 9, items)
        }
        VType::Top | VType::Null | VType::UninitThis | VType::Uninit(_) => {
            add(items, Instr::AconstNull, 1)
        }
    }
}

/// Restores a stack, the bottom first.
pub fn restore_stack(plan: &Plan, stack: &[VType], items: &mut Items) -> Result<(), NoMemory>
    ensures { OnOk result (items_of items.new ≡ form.restore_stack (meant plan.now) (reverse stack.now) (items_of items.old)) }
{
    let mut left = stack.len();
    while left > 0 {
        left -= 1;
        restore(plan, type_at(stack, left), items)?;
    }
    Ok(())
}

fn restore_local(plan: &Plan, slot: u16, ty: VType, items: &mut Items) -> Result<(), NoMemory>
    ensures { OnOk result (items_of items.new ≡ form.restore_local (meant plan.now) slot ty (items_of items.old)) }
{
    add(items, store_of(slot, ty), local_size(slot))?;
    restore(plan, ty, items)
}

/// Restores locals, the last one first.
pub fn restore_locals(
    plan: &Plan,
    locals: &[(u16, VType)],
    items: &mut Items,
) -> Result<(), NoMemory>
    ensures { OnOk result (items_of items.new ≡ form.restore_locals (meant plan.now) locals.now (items_of items.old)) }
{
    for at in 0..locals.len() {
        let local = pair_at(locals, at);
        restore_local(plan, local.0, local.1, items)?;
    }
    Ok(())
}
