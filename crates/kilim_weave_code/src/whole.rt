//! All items of a woven method.

ghost use Rattle.std.specs.Prelude.{◌≡◌, ◌∷◌, [], IfOk, OnOk};
ghost use Rattle.kilim_program.specs.Same.{argument_slots};
ghost use Rattle.kilim_weave_spec.specs.Weight.{calls_in};
ghost use Rattle.kilim_weave_spec.specs.Woven as form;
ghost use Rattle.kilim_weave_pieces.specs.Meant.{Ready, meant};
ghost use Rattle.kilim_weave_pieces.specs.Items.{items_of};

use crate::count::calls_in;
use crate::old::pieces;
use crate::resume::blocks;
use kilim_program::Instr;
use kilim_units::{NoMemory, Seq, no_room};
use kilim_weave_pieces::{Item, Items, Plan, Size, add, call_fiber, local_size};
use std::alloc::Global;

// The places of the resume blocks, in order.
fn resume_places(alloc: Global, plan: &Plan, calls: u32) -> Result<Seq<u32>, NoMemory>
    requires { calls ≡ calls_in plan.now.program.now plan.now.method.now.code }
    ensures { IfOk result (λ v. v ≡ form.resume_places (meant plan.now) 1 plan.now.method.now.code) }
{
    let mut places = Seq::new(alloc);
    for before in 0..calls {
        let place = plan.places.block(before + 1);
        let Ok(()) = places.push(place) else {
            return Err(NoMemory);
        };
    }
    Ok(places)
}

fn add_switch(alloc: Global, plan: &Plan, calls: u32, items: &mut Items) -> Result<(), NoMemory>
    requires { calls ≡ calls_in plan.now.program.now plan.now.method.now.code }
    ensures { OnOk result (items_of items.new ≡ form.switch_item (meant plan.now) ∷ (items_of items.old)) }
{
    let Ok(default) = plan.places.at(0) else {
        return Err(NoMemory);
    };
    let Ok(targets) = resume_places(alloc, plan, calls) else {
        return Err(NoMemory);
    };
    let Ok(count) = u32::try_from(targets.len()) else {
        // room: 2^32 targets of a switch
        return Err(no_room());
    };
    items.put(Item::Adds(
        Instr::Tableswitch(default, 1, targets),
        Size::Table(count),
        false,
    ))
}

fn keep_self(plan: &Plan, items: &mut Items) -> Result<(), NoMemory>
    ensures { OnOk result (items_of items.new ≡ form.keep_self (meant plan.now) (items_of items.old)) }
{
    if plan.method.is_static {
        return Ok(());
    }
    let Ok(()) = add(
        items,
        Instr::Astore(plan.receiver),
        local_size(plan.receiver),
    ) else {
        return Err(NoMemory);
    };
    add(items, Instr::Aload(0), 1)
}

fn prologue(
    alloc: Global,
    plan: &Plan,
    arguments: u16,
    calls: u32,
    items: &mut Items,
) -> Result<(), NoMemory>
    requires calls { calls ≡ calls_in plan.now.program.now plan.now.method.now.code }
    requires arguments { arguments ≡ argument_slots plan.now.method.now }
    ensures { OnOk result (items_of items.new ≡ form.prologue (meant plan.now) (items_of items.old)) }
{
    let Ok(()) = add_switch(alloc, plan, calls, items) else {
        return Err(NoMemory);
    };
    let Ok(()) = call_fiber(plan, 0, items) else {
        return Err(NoMemory);
    };
    let Ok(()) = keep_self(plan, items) else {
        return Err(NoMemory);
    };
    let Ok(()) = add(items, Instr::Astore(plan.fiber), local_size(plan.fiber)) else {
        return Err(NoMemory);
    };
    add(items, Instr::Aload(arguments), local_size(arguments))
}

// The items of a woven method, put where none are.
fn put_all(
    alloc: Global,
    plan: &Plan,
    arguments: u16,
    calls: u32,
    items: &mut Items,
) -> Result<(), NoMemory>
    requires ready { Ready plan.now }
    requires arguments { arguments ≡ argument_slots plan.now.method.now }
    requires calls { calls ≡ calls_in plan.now.program.now plan.now.method.now.code }
    requires none { items_of items.old ≡ [] }
    ensures { OnOk result (items_of items.new ≡ form.woven_items (meant plan.now)) }
{
    let Some(number) = calls.checked_add(1) else {
        // room: 2^32 calls in a method
        return Err(no_room());
    };
    let Ok(()) = blocks(alloc, plan, number, items) else {
        return Err(NoMemory);
    };
    let Ok(()) = pieces(alloc, plan, number, items) else {
        return Err(NoMemory);
    };
    prologue(alloc, plan, arguments, calls, items)
}

/// The items of a woven method.
pub fn woven_items(alloc: Global, plan: &Plan, arguments: u16) -> Result<Items, NoMemory>
    requires ready { Ready plan.now }
    requires arguments { arguments ≡ argument_slots plan.now.method.now }
    ensures { IfOk result (λ items. items_of items ≡ form.woven_items (meant plan.now)) }
{
    let Ok(calls) = calls_in(plan.program, plan.method.code.as_slice()) else {
        return Err(NoMemory);
    };
    let mut items = Items::new(alloc);
    match put_all(alloc, plan, arguments, calls, &mut items) {
        Ok(()) => Ok(items),
        Err(_) => Err(items.give_up()),
    }
}
